//! The commands of the program, as `clap` reads them.

ghost use Rattle.std.specs.Prelude.{◌≡◌, IfOk, false};
ghost use Rattle.clap.specs.Walk.{rule_of, texts};
ghost use Rattle.clap.specs.Words.{app_of, shape_of};
ghost use Rattle.clap.specs.declared.builder.command.Command.TheViews.{out-Command};
ghost use Rattle.command_words.specs.FormSteps.{shape_named, slot, forms, top};

use clap::{Arg, Command};
use std::alloc::{AllocError, Global};

/// A word that a command must have.
fn slot<'a>(alloc: Global, name: &'a str) -> Arg<'a>
    ensures rule { rule_of result ≡ slot name.entry.now }
    ensures local { result.global ≡ false }
{
    Arg::new(alloc, name).required(true)
}

/// A command that must have these words after it.
fn command_of<'a>(
    alloc: Global,
    name: &'a str,
    words: &[&'a str],
) -> Result<Command<'a>, AllocError>
    ensures shape { IfOk result (λ command. shape_of command ≡ shape_named name.entry.now (texts words.now)) }
    ensures local { IfOk result (λ command. (out-Command command).has_globals ≡ false) }
{
    let mut command = Command::new(alloc, name);
    for word in words {
        command = command.arg(slot(alloc, word))?;
    }
    Ok(command)
}

/// The program, with no command yet.
fn program<'a>(alloc: Global) -> Command<'a>
    ensures app { app_of result ≡ top }
    ensures local { (out-Command result).has_globals ≡ false }
{
    Command::new(alloc, "tars_tool")
        .no_binary_name(true)
        .subcommand_required(true)
}

/// The program with its commands.
pub(crate) fn app_of<'a>(alloc: Global) -> Result<Command<'a>, AllocError>
    ensures { IfOk result (λ app. app_of app ≡ forms) }
{
    program(alloc)
        .subcommand(command_of(alloc, "check", &["FILE"])?)?
        .subcommand(command_of(alloc, "plan", &["SCRIPT"])?)?
        .subcommand(command_of(alloc, "encode", &["FILE", "STRUCT", "VALUES"])?)?
        .subcommand(command_of(alloc, "decode", &["FILE", "STRUCT", "HEX"])?)?
        .subcommand(command_of(alloc, "compat", &["OLD", "NEW", "STRUCT"])?)
}

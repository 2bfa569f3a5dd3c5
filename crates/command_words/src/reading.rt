//! What the words that `clap` found ask for.

ghost use Rattle.std.specs.Prelude.{◌≡◌, option_map};
ghost use Rattle.clap.specs.Walk.{first_of, rows_of};
ghost use Rattle.clap.specs.Words.{found_of, subcommand_rows_of};
ghost use Rattle.command_words.specs.WordSteps as spec;
ghost use Rattle.command_words.specs.Asked.{asked_by};
ghost use Rattle.command_words.specs.WordSteps.{named_by, on_struct_by, old_new_by};

use crate::request::{OldNew, OnStruct, Request};
use crate::splitting::split_word;
use clap::ArgMatches;
use tars_model::StructName;

/// The struct that a word names: `MODULE::NAME`.
#[tactic(auto, unfolding(crate::specs::WordSteps::struct_of))]
fn struct_of(word: &str) -> Option<StructName<'_>>
    ensures { option_map named_by result ≡ spec.struct_of word.now }
{
    let (module, rest) = split_word(word.as_bytes())?;
    let (name, rest) = split_word(rest.strip_prefix(b"::")?)?;
    rest.is_empty().then_some(StructName { module, name })
}

/// The word in the place of this name.
fn word_at<'a>(words: &ArgMatches<'a>, place: &str) -> Option<&'a str>
    ensures { option_map (λ s. s.now) result ≡ first_of place.now (rows_of (found_of words.now)) }
{
    words.get_str(place)
}

/// The struct in an interface file, and the file with its values.
#[tactic(auto, unfolding(crate::specs::WordSteps::on_struct))]
fn on_struct<'a>(words: &ArgMatches<'a>, values: &str) -> Option<OnStruct<'a>>
    ensures { option_map on_struct_by result ≡ spec.on_struct values.now (rows_of (found_of words.now)) }
{
    Some(OnStruct {
        file: word_at(words, "FILE")?,
        of: struct_of(word_at(words, "STRUCT")?)?,
        values: word_at(words, values)?,
    })
}

/// The struct in two interface files.
#[tactic(auto, unfolding(crate::specs::WordSteps::old_new))]
fn old_new<'a>(words: &ArgMatches<'a>) -> Option<OldNew<'a>>
    ensures { option_map old_new_by result ≡ spec.old_new (rows_of (found_of words.now)) }
{
    Some(OldNew {
        old: word_at(words, "OLD")?,
        new: word_at(words, "NEW")?,
        of: struct_of(word_at(words, "STRUCT")?)?,
    })
}

/// What a command asks for of two interface files.
#[tactic(auto, unfolding(crate::specs::WordSteps::of_two))]
fn of_two<'a>(command: &str, words: &ArgMatches<'a>) -> Option<Request<'a>>
    ensures { option_map asked_by result ≡ spec.of_two command.now (rows_of (found_of words.now)) }
{
    match command {
        "compat" => Some(Request::Compat(old_new(words)?)),
        _ => None,
    }
}

/// What a command asks for of a struct in one interface file, or of two.
#[tactic(auto, unfolding(crate::specs::WordSteps::of_struct))]
fn of_struct<'a>(command: &str, words: &ArgMatches<'a>) -> Option<Request<'a>>
    ensures { option_map asked_by result ≡ spec.of_struct command.now (rows_of (found_of words.now)) }
{
    match command {
        "encode" => Some(Request::Encode(on_struct(words, "VALUES")?)),
        "decode" => Some(Request::Decode(on_struct(words, "HEX")?)),
        _ => of_two(command, words),
    }
}

/// What a command asks for of its words.
#[tactic(auto, unfolding(crate::specs::WordSteps::of_words))]
fn of_words<'a>(command: &str, words: &ArgMatches<'a>) -> Option<Request<'a>>
    ensures { option_map asked_by result ≡ spec.of_words command.now (rows_of (found_of words.now)) }
{
    match command {
        "check" => Some(Request::Check(word_at(words, "FILE")?)),
        "plan" => Some(Request::Plan(word_at(words, "SCRIPT")?)),
        _ => of_struct(command, words),
    }
}

/// What was asked for.
pub(crate) fn request_in<'a>(matches: &ArgMatches<'a>) -> Option<Request<'a>>
    ensures { option_map asked_by result ≡ spec.asked_at (subcommand_rows_of matches.now) }
{
    let (command, words) = matches.subcommand()?;
    of_words(command, words)
}

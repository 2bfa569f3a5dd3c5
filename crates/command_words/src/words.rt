//! The words of the command line, which `specs/Words.antt` says.

ghost use Rattle.std.specs.Prelude.{◌≡◌, ◌≢◌, ◌⊎◌, ◌↔◌, [], false, Err, IfOk, map, string_bytes};
ghost use Rattle.std.specs.List.{list_all};
ghost use Rattle.clap.specs.Words.{fault_of, kind_of, subcommand_of, subcommand_rows_of};
ghost use Rattle.command_words.specs.FormSteps.{forms};
ghost use Rattle.command_words.specs.Words.{AreNoForm, is_word};
ghost use Rattle.command_words.specs.Asked.{asked_by, AreAsked};

use crate::app::app_of;
use crate::reading::request_in;
use crate::request::{Request, WordsFault};
use clap::error::ErrorKind;
use clap::{ArgMatches, Error};
use std::alloc::Global;

/// Whether a word may stand in a command: it is not empty, and no option.
fn is_word(text: &str) -> bool
    ensures { result ≡ is_word text.now }
{
    match text.as_bytes() {
        [] => false,
        [first, ..] => *first != b'-',
    }
}

/// Whether all may.
fn are_words(words: &[String]) -> bool
    ensures { result ≡ list_all (λ word. is_word (string_bytes word)) words.now }
{
    for word in words {
        if !is_word(word.as_str()) {
            return false;
        }
    }
    true
}

/// Whatever else `clap` says of words, they are no form of a command.
fn fault_of(error: Error) -> WordsFault
    ensures { (result ≡ WordsFault.Usage) ↔ (kind_of error ≢ ErrorKind.OutOfMemory) }
{
    if error.kind() == ErrorKind::OutOfMemory {
        WordsFault::Memory
    } else {
        WordsFault::Usage
    }
}

/// What `clap` makes of words.
fn takes<'a>(alloc: Global, words: &'a [String]) -> Result<ArgMatches<'a>, WordsFault>
    ensures taken { IfOk result (λ matches. (fault_of forms (map string_bytes words.now) ≡ [])
        × (subcommand_rows_of matches ≡ subcommand_of forms (map string_bytes words.now))) }
    ensures usage { result ≡ Err WordsFault.Usage → fault_of forms (map string_bytes words.now) ≢ [] }
{
    let app = app_of(alloc)?;
    app.try_get_matches_from(words).map_err(fault_of)
}

/// What the words ask for, if they are a form of a command.
pub fn request_of<'a>(alloc: Global, words: &'a [String]) -> Result<Request<'a>, WordsFault>
    ensures asked { IfOk result (λ request. AreAsked (map string_bytes words.now) (asked_by request)) }
    ensures usage { result ≡ Err WordsFault.Usage → AreNoForm (map string_bytes words.now) }
    ensures no_form { AreNoForm (map string_bytes words.now)
        → (result ≡ Err WordsFault.Usage) ⊎ (result ≡ Err WordsFault.Memory) }
    // A word that is empty or begins with `-` is seen before memory is taken.
    ensures no_word { list_all is_word (map string_bytes words.now) ≡ false → result ≡ Err WordsFault.Usage }
{
    if !are_words(words) {
        return Err(WordsFault::Usage);
    }
    let matches = takes(alloc, words)?;
    request_in(&matches).ok_or(WordsFault::Usage)
}

//! White space and comments.

ghost use Rattle.idl_lex.specs.LexSteps as spec;
ghost use Rattle.idl_lex.specs.LexSteps.{Gives};
ghost use Rattle.std.specs.Prelude.{◌≡◌};

use crate::runs::{Class, split_run};

/// What stands after the first `*/`.
fn after_close(mut bytes: &[u8]) -> Option<&[u8]>
    ensures { Gives (λ rest. rest.now) result (spec.after_close bytes.entry.now) }
{
    while let [first, rest @ ..] = bytes {
        if let (b'*', [b'/', following @ ..]) = (first, rest) {
            return Some(following);
        }
        bytes = rest;
    }
    None
}

/// The bytes from the first line feed on.
#[tactic(auto, using(crate::proofs::Lexing::Words::RunLaws::from_feed_is))]
fn from_feed(bytes: &[u8]) -> &[u8]
    ensures { result.now ≡ spec.from_feed bytes.now }
{
    split_run(bytes, Class::Line).1
}

/// What stands after the comment whose first `/` came before the bytes.
fn after_slash(bytes: &[u8]) -> Option<&[u8]>
    ensures { Gives (λ rest. rest.now) result (spec.after_slash bytes.now) }
{
    match bytes {
        [b'/', line @ ..] => Some(from_feed(line)),
        [b'*', inside @ ..] => after_close(inside),
        _ => None,
    }
}

/// What stands after the white byte or the comment at the start.
pub fn after_trivia(bytes: &[u8]) -> Option<&[u8]>
    ensures { Gives (λ rest. rest.now) result (spec.after_trivia bytes.now) }
{
    match bytes {
        [b' ' | b'\t' | b'\r' | b'\n', rest @ ..] => Some(rest),
        [b'/', rest @ ..] => after_slash(rest),
        _ => None,
    }
}

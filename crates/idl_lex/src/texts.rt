//! Texts and their escapes.

ghost use Rattle.std.specs.Prelude.{◌≡◌, ◌<◌, true, length, drop, IfOk, IfErr};
ghost use Rattle.idl_lex.specs.Bytes.{begins, is_quote};
ghost use Rattle.idl_lex.specs.Texts.{IsTextPrefix};
ghost use Rattle.idl_lex.specs.Tokens.{IsFault};
ghost use Rattle.idl_lex.specs.LexSteps as spec;
ghost use Rattle.idl_lex.specs.LexSteps.{GivesOk};

use crate::fault::Fault;
use crate::lex_fault::LexWhy;
use crate::runs::{Class, is_in};

/// Why no byte or escape of a text stands at the start.
#[derive(Clone, Copy)]
enum Stop {
    /// The quote that ends the text.
    Quote,
    /// The end or a line feed, maybe in an escape.
    Cut,
    /// An escape that another byte spoils.
    Spoilt,
}

fn spoilt_by(byte: u8) -> Stop
    ensures { result ≡ spec.spoilt_by byte }
{
    if byte == b'\n' {
        Stop::Cut
    } else {
        Stop::Spoilt
    }
}

/// What stands after a hexadecimal digit.
#[tactic(auto, unfolding(crate::specs::LexSteps::digit_at))]
fn after_digit(bytes: &[u8]) -> Result<&[u8], Stop>
    ensures { GivesOk (λ rest. rest.now) result (spec.digit_at bytes.now) }
{
    match bytes {
        [] => Err(Stop::Cut),
        [digit, rest @ ..] if is_in(Class::Hexadecimal, *digit) => Ok(rest),
        [other, ..] => Err(spoilt_by(*other)),
    }
}

/// What stands after the escape whose backslash came before the bytes.
#[tactic(auto, unfolding(crate::specs::LexSteps::escape_at))]
fn after_escape(bytes: &[u8]) -> Result<&[u8], Stop>
    ensures { GivesOk (λ rest. rest.now) result (spec.escape_at bytes.now) }
{
    match bytes {
        [] => Err(Stop::Cut),
        [b'"' | b'\\' | b'n' | b't', rest @ ..] => Ok(rest),
        [b'x', rest @ ..] => after_digit(after_digit(rest)?),
        [other, ..] => Err(spoilt_by(*other)),
    }
}

/// What stands after the byte or escape of a text at the start.
#[tactic(auto, unfolding(crate::specs::LexSteps::unit_at))]
fn after_unit(bytes: &[u8]) -> Result<&[u8], Stop>
    ensures { GivesOk (λ rest. rest.now) result (spec.unit_at bytes.now) }
{
    match bytes {
        [] | [b'\n', ..] => Err(Stop::Cut),
        [b'"', ..] => Err(Stop::Quote),
        [b'\\', rest @ ..] => after_escape(rest),
        [_, rest @ ..] => Ok(rest),
    }
}

fn after_first(bytes: &[u8]) -> &[u8]
    requires { 0 < length bytes.now }
    ensures { result.now ≡ drop 1 bytes.now }
{
    &bytes[1..]
}

/// What stands after the text whose first quote is the first byte.
pub fn after_text(bytes: &[u8]) -> Result<&[u8], Fault<'_>>
    requires { begins is_quote bytes.now ≡ true }
    ensures text { IfOk result (λ rest. IsTextPrefix bytes.now rest.now) }
    ensures fault { IfErr result (λ fault. IsFault bytes.now fault.from.now fault.why) }
{
    let mut left = after_first(bytes);
    'units: loop {
        match after_unit(left) {
            Ok(rest) => left = rest,
            Err(Stop::Quote) => return Ok(after_first(left)),
            Err(Stop::Cut) => {
                return Err(Fault {
                    from: bytes,
                    why: LexWhy::OpenText,
                });
            }
            Err(Stop::Spoilt) => {
                return Err(Fault {
                    from: left,
                    why: LexWhy::BadByte,
                });
            }
        }
    }
}

//! What texts in quotes spell (docs/IDL.md, "Texts").

ghost use Rattle.std.specs.Prelude.{◌≡◌, ◌<◌, ◌≤◌, ◌-◌, [], ◌++◌, length, slice_range, IfOk, OnOk};
ghost use Rattle.idl_lex.specs.Bytes.{escaped};
ghost use Rattle.idl_lex.specs.EscapeSteps.{hex_value, escape_step, given as given_by, unescaped};
ghost use Rattle.idl_lex.specs.Meanings.{plain_text};
ghost use Rattle.idl_lex.specs.Texts.{IsTextPrefix, TextSpells};

use std::alloc::{AllocError, Global};
use tars_model::Bytes8;

/// Where a byte of a text stands among the escapes.
#[derive(Clone, Copy)]
enum Escape {
    Outside,
    /// After a backslash.
    Slash,
    /// After `\x`.
    Hex,
    /// After `\x` and this digit.
    Digit(u8),
}

/// The number of a hexadecimal digit of either case.
fn hex_value(byte: u8) -> u8
    ensures value { result ≡ hex_value byte }
    ensures small { result < 16 }
{
    match char::from(byte).to_digit(16) {
        Some(digit) => digit as u8,
        None => 0,
    }
}

/// The byte that a backslash and this byte spell.
fn escaped(byte: u8) -> u8
    ensures { result ≡ escaped byte }
{
    match byte {
        b'n' => b'\n',
        b't' => b'\t',
        _ => byte,
    }
}

impl Escape {
    /// Where the next byte leads, and what it gives.
    fn step(self, byte: u8) -> (Escape, Option<u8>)
        ensures { result ≡ escape_step self byte }
    {
        match self {
            Escape::Outside if byte == b'\\' => (Escape::Slash, None),
            Escape::Outside => (Escape::Outside, Some(byte)),
            Escape::Slash if byte == b'x' => (Escape::Hex, None),
            Escape::Slash => (Escape::Outside, Some(escaped(byte))),
            Escape::Hex => (Escape::Digit(byte), None),
            Escape::Digit(high) => {
                let value = 16 * hex_value(high) + hex_value(byte);
                (Escape::Outside, Some(value))
            }
        }
    }
}

/// Adds what a byte gives.
fn add(plain: &mut Vec<u8>, given: Option<u8>) -> Result<(), AllocError>
    ensures { OnOk result (plain.new.items ≡ plain.old.items ++ given_by given []) }
{
    if let Some(byte) = given {
        plain.push(byte)?;
    }
    Ok(())
}

/// The bytes with each escape replaced.
fn unescaped(alloc: Global, bytes: &[u8]) -> Result<Bytes8, AllocError>
    ensures { IfOk result (λ plain. plain ≡ unescaped bytes.now) }
{
    let mut plain = Vec::new(alloc);
    let mut escape = Escape::Outside;
    for byte in bytes {
        let (next, given) = escape.step(*byte);
        add(&mut plain, given)?;
        escape = next;
    }
    Ok(Bytes8::from_vec(plain))
}

fn between_quotes(word: &[u8]) -> &[u8]
    requires { 2 ≤ length word.now }
    ensures { result.now ≡ slice_range word.now 1 (length word.now - 1) }
{
    &word[1..word.len() - 1]
}

/// The bytes that a text in quotes spells, escapes replaced (docs/IDL.md, "Texts").
pub fn plain_text(alloc: Global, word: &[u8]) -> Result<Bytes8, AllocError>
    requires { IsTextPrefix word.now [] }
    ensures spells { IfOk result (λ bytes. TextSpells bytes word.now []) }
    ensures is { IfOk result (λ bytes. bytes ≡ plain_text word.now) }
{
    unescaped(alloc, between_quotes(word))
}

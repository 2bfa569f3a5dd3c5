//! Texts in quotes, and bytes as pairs of hexadecimal digits.

ghost use Rattle.std.specs.Prelude.{◌≡◌, ◌<◌, [], ◌∷◌, ◌++◌, IfOk, OnOk};
ghost use Rattle.value_text.specs.ReadSteps as spec;
ghost use Rattle.value_text.specs.ReadSteps.{Reads, ReadsAs};

use crate::cursor::{Cursor, Form};
use crate::halt::Halt;
use std::alloc::{AllocError, Global};
use tars_model::{Bytes8, Value};

#[tactic(auto, unfolding(crate::specs::ReadSteps::digit_at))]
fn digit(cursor: &mut Cursor<'_>) -> Result<u8, Halt>
    ensures value { Reads result cursor.new (spec.digit_at cursor.old) }
    ensures small { IfOk result (λ digit. digit < 16) }
{
    if let [first, rest @ ..] = cursor.rest() {
        if let Some(digit) = char::from(*first).to_digit(16) {
            cursor.go_to(rest);
            return Ok(digit as u8);
        }
    }
    Err(cursor.unexpected())
}

/// The byte of two digits.
#[tactic(auto, unfolding(crate::specs::ReadSteps::pair_at))]
fn pair(cursor: &mut Cursor<'_>) -> Result<Option<u8>, Halt>
    ensures { Reads result cursor.new (spec.pair_at cursor.old) }
{
    let high = digit(cursor)?;
    let low = digit(cursor)?;
    Ok(Some(16 * high + low))
}

/// The byte of an escape whose backslash came before.
#[tactic(auto, unfolding(crate::specs::ReadSteps::escape_at))]
fn escape(cursor: &mut Cursor<'_>) -> Result<Option<u8>, Halt>
    ensures { Reads result cursor.new (spec.escape_at cursor.old) }
{
    match cursor.rest() {
        [b'x', rest @ ..] => {
            cursor.go_to(rest);
            pair(cursor)
        }
        [byte @ (b'"' | b'\\'), rest @ ..] => {
            cursor.go_to(rest);
            Ok(Some(*byte))
        }
        _ => Err(cursor.unexpected()),
    }
}

/// A byte of a text, or none at the quote that ends it.
#[tactic(auto, unfolding(crate::specs::ReadSteps::text_unit_at))]
fn text_unit(cursor: &mut Cursor<'_>) -> Result<Option<u8>, Halt>
    ensures { Reads result cursor.new (spec.text_unit_at cursor.old) }
{
    match cursor.rest() {
        [b'"', rest @ ..] => {
            cursor.go_to(rest);
            Ok(None)
        }
        [b'\\', rest @ ..] => {
            cursor.go_to(rest);
            escape(cursor)
        }
        [byte @ 0x20..=0x7E, rest @ ..] => {
            cursor.go_to(rest);
            Ok(Some(*byte))
        }
        _ => Err(cursor.unexpected()),
    }
}

/// A byte of a blob, or none after its digits.
#[tactic(auto, unfolding(crate::specs::ReadSteps::blob_unit_at))]
fn blob_unit(cursor: &mut Cursor<'_>) -> Result<Option<u8>, Halt>
    ensures { Reads result cursor.new (spec.blob_unit_at cursor.old) }
{
    match cursor.rest() {
        [first, ..] if char::from(*first).is_digit(16) => pair(cursor),
        _ => Ok(None),
    }
}

fn unit(cursor: &mut Cursor<'_>, form: Form) -> Result<Option<u8>, Halt>
    ensures { Reads result cursor.new (spec.unit_at form cursor.old) }
{
    match form {
        Form::Quoted => text_unit(cursor),
        Form::Hexadecimal => blob_unit(cursor),
    }
}

fn add(bytes: &mut Vec<u8>, byte: u8) -> Result<(), AllocError>
    ensures { OnOk result (bytes.new.items ≡ bytes.old.items ++ byte ∷ []) }
{
    bytes.push(byte)?;
    Ok(())
}

/// The bytes of at most so many units less one, and their end.
fn units(alloc: Global, cursor: &mut Cursor<'_>, form: Form, most: usize) -> Result<Vec<u8>, Halt>
    ensures { ReadsAs (λ bytes. bytes.items) result cursor.new (spec.units_at form most cursor.old) }
{
    let mut bytes = Vec::new(alloc);
    for _ in 0..most {
        match unit(cursor, form)? {
            Some(byte) => add(&mut bytes, byte)?,
            None => return Ok(bytes),
        }
    }
    Err(cursor.unexpected())
}

/// A text in quotes.
#[tactic(auto, unfolding(crate::specs::ReadSteps::text_at))]
pub(crate) fn read_text(alloc: Global, cursor: &mut Cursor<'_>) -> Result<Value, Halt>
    ensures { Reads result cursor.new (spec.text_at cursor.old) }
{
    cursor.byte(b'"')?;
    let most = cursor.rest().len() + 1;
    let bytes = units(alloc, cursor, Form::Quoted, most)?;
    Ok(Value::Text(Bytes8::from_vec(bytes)))
}

/// The bytes of a `vector<byte>`.
#[tactic(auto, unfolding(crate::specs::ReadSteps::blob_at))]
pub(crate) fn read_blob(alloc: Global, cursor: &mut Cursor<'_>) -> Result<Value, Halt>
    ensures { Reads result cursor.new (spec.blob_at cursor.old) }
{
    cursor.byte(b'#')?;
    let most = cursor.rest().len() + 1;
    let bytes = units(alloc, cursor, Form::Hexadecimal, most)?;
    Ok(Value::Blob(Bytes8::from_vec(bytes)))
}

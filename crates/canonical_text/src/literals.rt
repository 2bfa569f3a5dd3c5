//! Literals: numbers, truth values and texts.

ghost use Rattle.std.specs.Prelude.{◌≡◌, ◌++◌, OnOk};
ghost use Rattle.std.specs.List.{flat_map};
ghost use Rattle.tars_model.specs.declared.ty.Ty.{out-Ty};
ghost use Rattle.tars_model.specs.declared.value.Value.{out-Value};
ghost use Rattle.canonical_text.specs.Canonical.{byte_text, quoted, truth_word, literal_text, is_absent};

use std::alloc::AllocError;
use tars_model::{Schema, Ty, Value, first_number};
use text_buffer::TextBuffer;

#[tactic(auto, unfolding(crate::specs::Canonical::byte_text))]
fn put_byte(text: &mut TextBuffer, byte: u8) -> Result<(), AllocError>
    ensures { OnOk result (text.new ≡ text.old ++ byte_text byte) }
{
    match byte {
        b'"' | b'\\' => {
            text.word("\\")?;
            text.put(&[byte])
        }
        0x20..=0x7E => text.put(&[byte]),
        _ => {
            text.word("\\x")?;
            text.put_hex(&[byte])
        }
    }
}

fn put_bytes(text: &mut TextBuffer, bytes: &[u8]) -> Result<(), AllocError>
    ensures { OnOk result (text.new ≡ text.old ++ flat_map byte_text bytes.now) }
{
    for byte in bytes {
        put_byte(text, *byte)?;
    }
    Ok(())
}

/// Adds a text between quotation marks, with escapes.
#[tactic(auto, unfolding(crate::specs::Canonical::quoted))]
pub fn put_quoted(text: &mut TextBuffer, bytes: &[u8]) -> Result<(), AllocError>
    ensures { OnOk result (text.new ≡ text.old ++ quoted bytes.now) }
{
    text.word("\"")?;
    put_bytes(text, bytes)?;
    text.word("\"")
}

pub fn truth_word(truth: bool) -> &'static str
    ensures { result.now ≡ truth_word truth }
{
    if truth { "true" } else { "false" }
}

/// Adds the literal of a value that has one.
#[tactic(auto, unfolding(crate::specs::Canonical::literal_text))]
pub(crate) fn put_literal(text: &mut TextBuffer, value: &Value) -> Result<(), AllocError>
    ensures { OnOk result (text.new ≡ text.old ++ literal_text value.now) }
{
    match value {
        Value::Bool(truth) => text.word(truth_word(*truth)),
        Value::Num(number) => text.show(*number),
        Value::Text(bytes) => put_quoted(text, bytes),
        _ => Ok(()),
    }
}

/// Whether a default is the absent one of its type. Types without literals have no other.
pub(crate) fn is_absent(schema: &Schema, ty: &Ty, value: &Value) -> bool
    ensures { result ≡ is_absent schema.now (out-Ty ty.now) (out-Value value.now) }
{
    match (ty, value) {
        (Ty::Bool, Value::Bool(truth)) => !*truth,
        (Ty::Text, Value::Text(bytes)) => bytes.is_empty(),
        (Ty::Enum(number), Value::Num(n)) => {
            let first = first_number(schema.items_at(*number));
            *n == i64::from(first)
        }
        (_, Value::Num(n)) => *n == 0,
        _ => true,
    }
}

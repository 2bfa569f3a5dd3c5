//! The printed text of a value (docs/SCRIPTS.md, "Value text").

ghost use Rattle.std.specs.Prelude.{◌≡◌, [], ◌++◌, true, map, OnOk, IfOk};
ghost use Rattle.tars_model.specs.Values.{fits};
ghost use Rattle.tars_model.specs.declared.ty.Ty.{out-Ty};
ghost use Rattle.value_text.specs.Printed.{blob_text, listed, element_texts, entry_text, entry_texts, member_texts, list_text, map_text, struct_text, printing, entry_printing, printed};

use canonical_text::{put_quoted, truth_word};
use std::alloc::{AllocError, Global};
use tars_model::{Member, Pair, Schema, Ty, Value};
use text_buffer::TextBuffer;

#[tactic(auto, unfolding(crate::specs::Printed::blob_text))]
fn put_blob(text: &mut TextBuffer, bytes: &[u8]) -> Result<(), AllocError>
    ensures { OnOk result (text.new ≡ text.old ++ blob_text bytes.now) }
{
    text.word("#")?;
    text.put_hex(bytes)
}

/// Values of one type, with `, ` between them.
#[cycle(printing)]
fn put_values(
    values: &[Value],
    text: &mut TextBuffer,
    schema: &Schema,
    of: &Ty,
) -> Result<(), AllocError>
    ensures { OnOk result (text.new ≡ text.old ++ listed [] (element_texts schema.now of.now (map printing values.now))) }
{
    let mut separator = b"".as_slice();
    for value in values {
        text.put(separator)?;
        put_value(value, text, schema, of)?;
        separator = b", ".as_slice();
    }
    Ok(())
}

#[cycle(printing)]
fn put_list(
    values: &[Value],
    text: &mut TextBuffer,
    schema: &Schema,
    ty: &Ty,
) -> Result<(), AllocError>
    ensures { OnOk result (text.new ≡ text.old ++ list_text (map printing values.now) schema.now (out-Ty ty.now)) }
{
    match ty {
        Ty::Vector(of) => {
            text.word("[")?;
            put_values(values, text, schema, of.get())?;
            text.word("]")
        }
        _ => Ok(()),
    }
}

/// A key, `: ` and a value.
#[cycle(printing)]
fn put_entry(
    pair: &Pair,
    text: &mut TextBuffer,
    schema: &Schema,
    key: &Ty,
    to: &Ty,
) -> Result<(), AllocError>
    ensures { OnOk result (text.new ≡ text.old ++ entry_text ((entry_printing pair.now).0 schema.now key.now) ((entry_printing pair.now).1 schema.now to.now)) }
{
    put_value(&pair.key, text, schema, key)?;
    text.word(": ")?;
    put_value(&pair.value, text, schema, to)
}

#[cycle(printing)]
fn put_pairs(
    pairs: &[Pair],
    text: &mut TextBuffer,
    schema: &Schema,
    key: &Ty,
    to: &Ty,
) -> Result<(), AllocError>
    ensures { OnOk result (text.new ≡ text.old ++ listed [] (entry_texts schema.now key.now to.now (map entry_printing pairs.now))) }
{
    let mut separator = b"".as_slice();
    for pair in pairs {
        text.put(separator)?;
        put_entry(pair, text, schema, key, to)?;
        separator = b", ".as_slice();
    }
    Ok(())
}

#[cycle(printing)]
fn put_map(
    pairs: &[Pair],
    text: &mut TextBuffer,
    schema: &Schema,
    ty: &Ty,
) -> Result<(), AllocError>
    ensures { OnOk result (text.new ≡ text.old ++ map_text (map entry_printing pairs.now) schema.now (out-Ty ty.now)) }
{
    match ty {
        Ty::Map(key, to) => {
            text.word("{")?;
            put_pairs(pairs, text, schema, key.get(), to.get())?;
            text.word("}")
        }
        _ => Ok(()),
    }
}

/// A value for each member, after the member's name.
#[cycle(printing)]
#[tactic(auto, unfolding(crate::specs::Printed::member_text))]
fn put_members(
    values: &[Value],
    text: &mut TextBuffer,
    schema: &Schema,
    members: &[Member],
) -> Result<(), AllocError>
    ensures { OnOk result (text.new ≡ text.old ++ listed [] (member_texts schema.now members.now (map printing values.now))) }
{
    let mut separator = b"".as_slice();
    for (member, value) in members.iter().zip(values) {
        text.put(separator)?;
        text.put(&member.name)?;
        text.word("=")?;
        put_value(value, text, schema, &member.ty)?;
        separator = b", ".as_slice();
    }
    Ok(())
}

#[cycle(printing)]
fn put_struct(
    values: &[Value],
    text: &mut TextBuffer,
    schema: &Schema,
    ty: &Ty,
) -> Result<(), AllocError>
    ensures { OnOk result (text.new ≡ text.old ++ struct_text (map printing values.now) schema.now (out-Ty ty.now)) }
{
    match ty {
        Ty::Struct(number) => {
            text.word("(")?;
            put_members(values, text, schema, schema.members_at(*number))?;
            text.word(")")
        }
        _ => Ok(()),
    }
}

/// Adds the text of a value of the type.
#[cycle(printing)]
#[tactic(auto, using(crate::proofs::Layers::bool_printed, crate::proofs::Layers::num_printed, crate::proofs::Layers::text_printed, crate::proofs::Layers::blob_printed, crate::proofs::Layers::list_printed, crate::proofs::Layers::map_printed, crate::proofs::Layers::struct_printed))]
pub fn put_value(
    value: &Value,
    text: &mut TextBuffer,
    schema: &Schema,
    ty: &Ty,
) -> Result<(), AllocError>
    ensures { OnOk result (text.new ≡ text.old ++ printing value.now schema.now ty.now) }
{
    match value {
        Value::Bool(truth) => text.word(truth_word(*truth)),
        Value::Num(number) => text.show(*number),
        Value::Text(bytes) => put_quoted(text, bytes.as_slice()),
        Value::Blob(bytes) => put_blob(text, bytes.as_slice()),
        Value::List(values) => put_list(values.as_slice(), text, schema, ty),
        Value::Map(pairs) => put_map(pairs.as_slice(), text, schema, ty),
        Value::Struct(values) => put_struct(values.as_slice(), text, schema, ty),
    }
}

/// The text of a value of the type.
pub fn print_value(
    alloc: Global,
    schema: &Schema,
    ty: &Ty,
    value: &Value,
) -> Result<Vec<u8>, AllocError>
    requires { fits schema.now ty.now value.now ≡ true }
    ensures text { IfOk result (λ text. text.items ≡ printed schema.now ty.now value.now) }
{
    let mut text = TextBuffer::new(alloc);
    put_value(value, &mut text, schema, ty)?;
    Ok(text.into_bytes())
}

ghost use Rattle.std.specs.Prelude.{◌≡◌, ◌≤◌, ◌++◌, true, length, map, OnOk, OnErr};
ghost use Rattle.std.specs.List.{list_all};
ghost use Rattle.tars_model.specs.Members.{HaveRisingTags};
ghost use Rattle.tars_model.specs.Values.{told, told_entry, entry_fits, fits_list, fits_map, fits_struct, fit_told, fit_members};
ghost use Rattle.tars_model.specs.declared.ty.Ty.{out-Ty};
ghost use Rattle.tars_codec.specs.Rooms.{Adds};
ghost use Rattle.tars_codec.specs.Spellings.{spelled_value, spelled_elements, spelled_list, spelled_entry, spelled_entries, spelled_map, spelled_members, spelled_struct};
ghost use Rattle.tars_codec.specs.Written.{written};

mod fields;
mod numbers;

use crate::head::put_head;
use crate::lengths::encoded_len;
use bytes::BytesMut;
use fields::{put_blob, put_bool, put_size, put_text};
use numbers::put_number;
use std::alloc::AllocError;
use tars_model::{Member, Pair, Schema, Ty, Value};
use tars_wire::WireType;

/// Each value is a field of tag 0.
#[cycle(values)]
fn put_elements(out: &mut BytesMut, values: &[Value], schema: &Schema, of: &Ty)
    requires fits { list_all (λ v. (told v).fits schema.now of.now) values.now ≡ true }
    requires room { length (spelled_elements schema.now of.now values.now) ≤ out.old.spare }
    ensures { Adds out.old out.new (spelled_elements schema.now of.now values.now) }
{
    for value in values {
        put_value(out, 0, value, schema, of);
    }
}

/// The elements of a vector, after their number.
#[cycle(values)]
fn put_list(out: &mut BytesMut, tag: u8, values: &[Value], schema: &Schema, ty: &Ty)
    requires fits { fits_list (map told values.now) schema.now (out-Ty ty.now) ≡ true }
    requires room { length (spelled_list tag schema.now ty.now values.now) ≤ out.old.spare }
    ensures { Adds out.old out.new (spelled_list tag schema.now ty.now values.now) }
{
    match ty {
        Ty::Vector(of) => {
            put_head(out, tag, WireType::List);
            put_size(out, values.len());
            put_elements(out, values, schema, of.get());
        }
        _ => unreachable!(),
    }
}

/// The key of an entry has tag 0, its value tag 1.
#[cycle(values)]
fn put_entry(out: &mut BytesMut, pair: &Pair, schema: &Schema, key: &Ty, to: &Ty)
    requires fits { entry_fits schema.now key.now to.now pair.now ≡ true }
    requires room { length (spelled_entry schema.now key.now to.now pair.now) ≤ out.old.spare }
    ensures { Adds out.old out.new (spelled_entry schema.now key.now to.now pair.now) }
{
    put_value(out, 0, &pair.key, schema, key);
    put_value(out, 1, &pair.value, schema, to);
}

#[cycle(values)]
fn put_entries(out: &mut BytesMut, pairs: &[Pair], schema: &Schema, key: &Ty, to: &Ty)
    requires fits { list_all (entry_fits schema.now key.now to.now) pairs.now ≡ true }
    requires room { length (spelled_entries schema.now key.now to.now pairs.now) ≤ out.old.spare }
    ensures { Adds out.old out.new (spelled_entries schema.now key.now to.now pairs.now) }
{
    for pair in pairs {
        put_entry(out, pair, schema, key, to);
    }
}

/// The entries of a map, after their number.
#[cycle(values)]
fn put_map(out: &mut BytesMut, tag: u8, pairs: &[Pair], schema: &Schema, ty: &Ty)
    requires fits { fits_map (map told_entry pairs.now) schema.now (out-Ty ty.now) ≡ true }
    requires room { length (spelled_map tag schema.now ty.now pairs.now) ≤ out.old.spare }
    ensures { Adds out.old out.new (spelled_map tag schema.now ty.now pairs.now) }
{
    match ty {
        Ty::Map(key, to) => {
            put_head(out, tag, WireType::Map);
            put_size(out, pairs.len());
            put_entries(out, pairs, schema, key.get(), to.get());
        }
        _ => unreachable!(),
    }
}

/// A field for each member, under its tag.
#[cycle(values)]
fn put_members(out: &mut BytesMut, values: &[Value], schema: &Schema, members: &[Member])
    requires fits { fit_told schema.now members.now (map told values.now) ≡ true }
    requires room { length (spelled_members schema.now members.now values.now) ≤ out.old.spare }
    ensures { Adds out.old out.new (spelled_members schema.now members.now values.now) }
{
    for (member, value) in members.iter().zip(values) {
        put_value(out, member.tag, value, schema, &member.ty);
    }
}

/// The members of a struct between the heads of its begin and its end.
#[cycle(values)]
fn put_struct(out: &mut BytesMut, tag: u8, values: &[Value], schema: &Schema, ty: &Ty)
    requires fits { fits_struct (map told values.now) schema.now (out-Ty ty.now) ≡ true }
    requires room { length (spelled_struct tag schema.now ty.now values.now) ≤ out.old.spare }
    ensures { Adds out.old out.new (spelled_struct tag schema.now ty.now values.now) }
{
    match ty {
        Ty::Struct(number) => {
            put_head(out, tag, WireType::StructBegin);
            put_members(out, values, schema, schema.members_at(*number));
            put_head(out, 0, WireType::StructEnd);
        }
        _ => unreachable!(),
    }
}

/// A value of the type.
#[cycle(values)]
#[tactic(auto, using(crate::proofs::Fitting::text_is_short, crate::proofs::Fitting::blob_is_short, crate::proofs::Layers::bool_wire, crate::proofs::Layers::num_wire, crate::proofs::Layers::text_wire, crate::proofs::Layers::blob_wire, crate::proofs::Layers::list_wire, crate::proofs::Layers::map_wire, crate::proofs::Layers::struct_wire))]
fn put_value(out: &mut BytesMut, tag: u8, value: &Value, schema: &Schema, ty: &Ty)
    requires fits { (told value.now).fits schema.now ty.now ≡ true }
    requires room { length (spelled_value tag schema.now ty.now value.now) ≤ out.old.spare }
    ensures { Adds out.old out.new (spelled_value tag schema.now ty.now value.now) }
{
    match value {
        Value::Bool(value) => put_bool(out, tag, *value),
        Value::Num(number) => put_number(out, tag, *number),
        Value::Text(text) => put_text(out, tag, text),
        Value::Blob(bytes) => put_blob(out, tag, bytes),
        Value::List(values) => put_list(out, tag, values.as_slice(), schema, ty),
        Value::Map(pairs) => put_map(out, tag, pairs.as_slice(), schema, ty),
        Value::Struct(values) => put_struct(out, tag, values.as_slice(), schema, ty),
    }
}

/// Adds the body that spells the values, every member of them, to the buffer.
#[tactic(auto, unfolding(crate::specs::Written::written))]
pub fn encode(
    schema: &Schema,
    members: &[Member],
    values: &[Value],
    out: &mut BytesMut,
) -> Result<(), AllocError>
    requires rising { HaveRisingTags members.now }
    requires fits { fit_members schema.now members.now values.now ≡ true }
    ensures written { OnOk result (out.new.items ≡ out.old.items ++ written schema.now members.now values.now) }
    // After an error the buffer has the bytes that it had.
    ensures kept { OnErr result (out.new.items ≡ out.old.items) }
{
    let len = encoded_len(schema, members, values);
    // No memory holds so many bytes.
    if len == u64::MAX {
        return Err(AllocError);
    }
    out.reserve(len as usize)?;
    put_members(out, values, schema, members);
    Ok(())
}

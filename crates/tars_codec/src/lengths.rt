ghost use Rattle.std.specs.Prelude.{◌≡◌, true, length, map, min};
ghost use Rattle.std.specs.List.{list_all};
ghost use Rattle.tars_model.specs.Members.{HaveRisingTags};
ghost use Rattle.tars_model.specs.Values.{told, told_entry, entry_fits, fits_list, fits_map, fits_struct, fit_told, fit_members};
ghost use Rattle.tars_model.specs.declared.ty.Ty.{out-Ty};
ghost use Rattle.tars_codec.specs.Spellings.{spelled_value, spelled_elements, spelled_list, spelled_entry, spelled_entries, spelled_map, spelled_members, spelled_struct};
ghost use Rattle.tars_codec.specs.Written.{written};

mod fields;

use crate::head::head_len;
use fields::{blob_len, bool_len, number_len, size_len, text_len};
use tars_model::{Member, Pair, Schema, Ty, Value};

#[cycle(lengths)]
fn elements_len(values: &[Value], schema: &Schema, of: &Ty) -> u64
    requires { list_all (λ v. (told v).fits schema.now of.now) values.now ≡ true }
    ensures { result ≡ min (length (spelled_elements schema.now of.now values.now)) u64.MAX }
{
    let mut len: u64 = 0;
    for value in values {
        len = len.saturating_add(value_len(0, value, schema, of));
    }
    len
}

#[cycle(lengths)]
fn list_len(tag: u8, values: &[Value], schema: &Schema, ty: &Ty) -> u64
    requires { fits_list (map told values.now) schema.now (out-Ty ty.now) ≡ true }
    ensures { result ≡ min (length (spelled_list tag schema.now ty.now values.now)) u64.MAX }
{
    match ty {
        Ty::Vector(of) => {
            let head = head_len(tag) + size_len(values.len());
            head.saturating_add(elements_len(values, schema, of.get()))
        }
        _ => unreachable!(),
    }
}

#[cycle(lengths)]
fn entry_len(pair: &Pair, schema: &Schema, key: &Ty, to: &Ty) -> u64
    requires { entry_fits schema.now key.now to.now pair.now ≡ true }
    ensures { result ≡ min (length (spelled_entry schema.now key.now to.now pair.now)) u64.MAX }
{
    let key = value_len(0, &pair.key, schema, key);
    key.saturating_add(value_len(1, &pair.value, schema, to))
}

#[cycle(lengths)]
fn entries_len(pairs: &[Pair], schema: &Schema, key: &Ty, to: &Ty) -> u64
    requires { list_all (entry_fits schema.now key.now to.now) pairs.now ≡ true }
    ensures { result ≡ min (length (spelled_entries schema.now key.now to.now pairs.now)) u64.MAX }
{
    let mut len: u64 = 0;
    for pair in pairs {
        len = len.saturating_add(entry_len(pair, schema, key, to));
    }
    len
}

#[cycle(lengths)]
fn map_len(tag: u8, pairs: &[Pair], schema: &Schema, ty: &Ty) -> u64
    requires { fits_map (map told_entry pairs.now) schema.now (out-Ty ty.now) ≡ true }
    ensures { result ≡ min (length (spelled_map tag schema.now ty.now pairs.now)) u64.MAX }
{
    match ty {
        Ty::Map(key, to) => {
            let head = head_len(tag) + size_len(pairs.len());
            head.saturating_add(entries_len(pairs, schema, key.get(), to.get()))
        }
        _ => unreachable!(),
    }
}

#[cycle(lengths)]
fn members_len(values: &[Value], schema: &Schema, members: &[Member]) -> u64
    requires { fit_told schema.now members.now (map told values.now) ≡ true }
    ensures { result ≡ min (length (spelled_members schema.now members.now values.now)) u64.MAX }
{
    let mut len: u64 = 0;
    for (member, value) in members.iter().zip(values) {
        len = len.saturating_add(value_len(member.tag, value, schema, &member.ty));
    }
    len
}

#[cycle(lengths)]
fn struct_len(tag: u8, values: &[Value], schema: &Schema, ty: &Ty) -> u64
    requires { fits_struct (map told values.now) schema.now (out-Ty ty.now) ≡ true }
    ensures { result ≡ min (length (spelled_struct tag schema.now ty.now values.now)) u64.MAX }
{
    match ty {
        Ty::Struct(number) => {
            let heads = head_len(tag) + head_len(0);
            heads.saturating_add(members_len(values, schema, schema.members_at(*number)))
        }
        _ => unreachable!(),
    }
}

#[cycle(lengths)]
#[tactic(auto, using(crate::proofs::Fitting::text_is_short, crate::proofs::Fitting::blob_is_short, crate::proofs::Layers::bool_wire, crate::proofs::Layers::num_wire, crate::proofs::Layers::text_wire, crate::proofs::Layers::blob_wire, crate::proofs::Layers::list_wire, crate::proofs::Layers::map_wire, crate::proofs::Layers::struct_wire))]
fn value_len(tag: u8, value: &Value, schema: &Schema, ty: &Ty) -> u64
    requires { (told value.now).fits schema.now ty.now ≡ true }
    ensures { result ≡ min (length (spelled_value tag schema.now ty.now value.now)) u64.MAX }
{
    match value {
        Value::Bool(value) => bool_len(tag, *value),
        Value::Num(number) => number_len(tag, *number),
        Value::Text(text) => text_len(tag, text),
        Value::Blob(bytes) => blob_len(tag, bytes),
        Value::List(values) => list_len(tag, values.as_slice(), schema, ty),
        Value::Map(pairs) => map_len(tag, pairs.as_slice(), schema, ty),
        Value::Struct(values) => struct_len(tag, values.as_slice(), schema, ty),
    }
}

/// How many bytes `encode` adds for the values, or 2^64 - 1 where they are more. Takes no memory.
#[tactic(auto, unfolding(crate::specs::Written::written))]
pub fn encoded_len(schema: &Schema, members: &[Member], values: &[Value]) -> u64
    requires rising { HaveRisingTags members.now }
    requires fits { fit_members schema.now members.now values.now ≡ true }
    ensures { result ≡ min (length (written schema.now members.now values.now)) u64.MAX }
{
    members_len(values, schema, members)
}

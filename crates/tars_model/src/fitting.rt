ghost use Rattle.std.specs.Prelude.{◌≡◌, map};
ghost use Rattle.std.specs.List.{list_all};
ghost use Rattle.tars_model.specs.Values.{told, told_entry, entry_key, entry_fits, elements_fit, pairs_fit, is_bool, is_byte, fits_list, fits_map, fits_struct, key_of, key_below, keys_rise, is_number_of, fits_text, fits_blob, fit_told, fits};
ghost use Rattle.tars_model.specs.declared.ty.Ty.{out-Ty};
ghost use Rattle.tars_model.specs.declared.value.Value.{out-Value};

use crate::{Member, Pair, Schema, Ty, Value};
use std::cmp::Ordering;

fn is_bool(ty: &Ty) -> bool
    ensures { result ≡ is_bool (out-Ty ty.now) }
{
    matches!(ty, Ty::Bool)
}

/// Whether the number is one of the type's.
fn is_number_of(ty: &Ty, number: i64) -> bool
    ensures { result ≡ is_number_of (out-Ty ty.now) number }
{
    match ty {
        Ty::Byte => i8::try_from(number).is_ok(),
        Ty::Short => i16::try_from(number).is_ok(),
        Ty::Int | Ty::Enum(_) => i32::try_from(number).is_ok(),
        Ty::Long => true,
        Ty::UByte => u8::try_from(number).is_ok(),
        Ty::UShort => u16::try_from(number).is_ok(),
        Ty::UInt => u32::try_from(number).is_ok(),
        _ => false,
    }
}

/// Whether a text of so many bytes is one of the type's.
fn fits_text(ty: &Ty, size: usize) -> bool
    ensures { result ≡ fits_text size (out-Ty ty.now) }
{
    match ty {
        Ty::Text => u32::try_from(size).is_ok(),
        _ => false,
    }
}

/// Whether so many bytes are a value of the type.
fn fits_blob(ty: &Ty, size: usize) -> bool
    ensures { result ≡ fits_blob size (out-Ty ty.now) }
{
    match ty {
        Ty::Vector(of) => matches!(of.get(), Ty::Byte) && size < 0x8000_0000,
        _ => false,
    }
}

/// Whether a key is below the next one: numbers by value, texts byte by byte.
fn is_below(first: &Value, second: &Value) -> bool
    ensures { result ≡ key_below (key_of (out-Value first.now)) (key_of (out-Value second.now)) }
{
    match (first, second) {
        (Value::Num(first), Value::Num(second)) => first < second,
        (Value::Text(first), Value::Text(second)) => {
            matches!(first.as_slice().cmp(second.as_slice()), Ordering::Less)
        }
        _ => false,
    }
}

/// Whether the key of an entry is below that of the next.
#[tactic(auto, using(crate::proofs::ToldLaws::entry_key_is))]
fn are_below(first: &Pair, second: &Pair) -> bool
    ensures { result ≡ key_below (entry_key first.now) (entry_key second.now) }
{
    is_below(&first.key, &second.key)
}

/// Whether the keys of entries rise.
fn keys_rise(pairs: &[Pair]) -> bool
    ensures { result ≡ keys_rise (map entry_key pairs.now) }
{
    let mut left = pairs;
    while let [first, rest @ ..] = left {
        if let [second, ..] = rest {
            if !are_below(first, second) {
                return false;
            }
        }
        left = rest;
    }
    true
}

fn is_byte(ty: &Ty) -> bool
    ensures { result ≡ is_byte (out-Ty ty.now) }
{
    matches!(ty, Ty::Byte)
}

/// Whether each value is one of the type's.
#[cycle(fits)]
fn all_fit(values: &[Value], schema: &Schema, ty: &Ty) -> bool
    ensures { result ≡ list_all (λ v. (told v).fits schema.now ty.now) values.now }
{
    for value in values {
        if !value_fits(value, schema, ty) {
            return false;
        }
    }
    true
}

/// Whether each entry has a key and a value of the types.
#[cycle(fits)]
fn entries_fit(pairs: &[Pair], schema: &Schema, key: &Ty, to: &Ty) -> bool
    ensures { result ≡ list_all (entry_fits schema.now key.now to.now) pairs.now }
{
    for pair in pairs {
        if !entry_fits(pair, schema, key, to) {
            return false;
        }
    }
    true
}

#[cycle(fits)]
#[tactic(auto, using(crate::proofs::ToldLaws::entry_fits_is))]
fn entry_fits(pair: &Pair, schema: &Schema, key: &Ty, to: &Ty) -> bool
    ensures { result ≡ entry_fits schema.now key.now to.now pair.now }
{
    value_fits(&pair.key, schema, key) && value_fits(&pair.value, schema, to)
}

/// Whether there are as many values as members, each of its member's type.
#[cycle(fits)]
#[tactic(auto, using(crate::proofs::ToldLaws::other_count))]
fn members_fit(values: &[Value], schema: &Schema, members: &[Member]) -> bool
    ensures { result ≡ fit_told schema.now members.now (map told values.now) }
{
    if values.len() != members.len() {
        return false;
    }
    for (k, value) in values.iter().enumerate() {
        if !value_fits(value, schema, &members[k].ty) {
            return false;
        }
    }
    true
}

/// Whether values make a vector that is no `vector<byte>`.
#[cycle(fits)]
fn elements_fit(values: &[Value], schema: &Schema, of: &Ty) -> bool
    ensures { result ≡ elements_fit schema.now of.now values.now }
{
    if is_byte(of) || values.len() >= 0x8000_0000 {
        return false;
    }
    all_fit(values, schema, of)
}

#[cycle(fits)]
#[tactic(auto, using(crate::proofs::ToldLaws::list_told))]
fn fits_list(values: &[Value], schema: &Schema, ty: &Ty) -> bool
    ensures { result ≡ fits_list (map told values.now) schema.now (out-Ty ty.now) }
{
    match ty {
        Ty::Vector(of) => elements_fit(values, schema, of.get()),
        _ => false,
    }
}

/// Whether entries make a map.
#[cycle(fits)]
fn pairs_fit(pairs: &[Pair], schema: &Schema, key: &Ty, to: &Ty) -> bool
    ensures { result ≡ pairs_fit schema.now key.now to.now pairs.now }
{
    if pairs.len() >= 0x8000_0000 || !keys_rise(pairs) {
        return false;
    }
    entries_fit(pairs, schema, key, to)
}

#[cycle(fits)]
#[tactic(auto, using(crate::proofs::ToldLaws::map_told))]
fn fits_map(pairs: &[Pair], schema: &Schema, ty: &Ty) -> bool
    ensures { result ≡ fits_map (map told_entry pairs.now) schema.now (out-Ty ty.now) }
{
    match ty {
        Ty::Map(key, to) => pairs_fit(pairs, schema, key.get(), to.get()),
        _ => false,
    }
}

#[cycle(fits)]
fn fits_struct(values: &[Value], schema: &Schema, ty: &Ty) -> bool
    ensures { result ≡ fits_struct (map told values.now) schema.now (out-Ty ty.now) }
{
    match ty {
        Ty::Struct(number) => members_fit(values, schema, schema.members_at(*number)),
        _ => false,
    }
}

#[cycle(fits)]
#[tactic(auto, using(crate::proofs::ToldLaws::told_fits_bool, crate::proofs::ToldLaws::told_fits_num, crate::proofs::ToldLaws::told_fits_text, crate::proofs::ToldLaws::told_fits_blob, crate::proofs::ToldLaws::told_fits_list, crate::proofs::ToldLaws::told_fits_map, crate::proofs::ToldLaws::told_fits_struct))]
fn value_fits(value: &Value, schema: &Schema, ty: &Ty) -> bool
    ensures { result ≡ (told value.now).fits schema.now ty.now }
{
    match value {
        Value::Bool(_) => is_bool(ty),
        Value::Num(number) => is_number_of(ty, *number),
        Value::Text(text) => fits_text(ty, text.as_slice().len()),
        Value::Blob(bytes) => fits_blob(ty, bytes.as_slice().len()),
        Value::List(values) => fits_list(values.as_slice(), schema, ty),
        Value::Map(pairs) => fits_map(pairs.as_slice(), schema, ty),
        Value::Struct(values) => fits_struct(values.as_slice(), schema, ty),
    }
}

/// Whether a value is one of the type's.
pub fn fits(schema: &Schema, ty: &Ty, value: &Value) -> bool
    ensures { result ≡ fits schema.now ty.now value.now }
{
    value_fits(value, schema, ty)
}

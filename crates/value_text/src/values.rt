//! Values of every type.

ghost use Rattle.std.specs.Prelude.{◌≡◌, ◌≤◌, [], length, map, IfOk, OnOk, IfSome};
ghost use Rattle.std.specs.List.{insert};
ghost use Rattle.tars_model.specs.Values.{key_of, key_below, entry_key};
ghost use Rattle.tars_model.specs.declared.ty.Ty.{out-Ty};
ghost use Rattle.tars_model.specs.declared.value.Value.{out-Value};
ghost use Rattle.value_text.specs.ValueSteps as spec;
ghost use Rattle.value_text.specs.ReadSteps.{Reads, Moves};

use crate::cursor::Cursor;
use crate::halt::Halt;
use crate::numbers::{read_number, read_truth};
use crate::texts::{read_blob, read_text};
use crate::value_fault::ValueWhy;
use std::alloc::{AllocError, Global};
use std::cmp::Ordering;
use tars_model::{List, Member, Pair, Schema, Ty, Value};

/// Whether a key is below another: numbers by value, texts byte by byte.
fn is_below(first: &Value, second: &Value) -> bool
    ensures { result ≡ key_below (key_of (out-Value first.now)) (key_of (out-Value second.now)) }
{
    match (first, second) {
        (Value::Num(first), Value::Num(second)) => first < second,
        (Value::Text(first), Value::Text(second)) => {
            matches!(first.as_slice().cmp(second.as_slice()), Ordering::Less)
        }
        _ => false,
    }
}

/// The place of a key among entries whose keys rise; none where it is there already. It looks from the end.
#[tactic(auto, using(crate::proofs::Places::none_behind, crate::proofs::Places::one_before, crate::proofs::Places::goes_down, crate::proofs::Places::place_found, crate::proofs::Places::no_place))]
fn place_of(pairs: &[Pair], key: &Value) -> Option<usize>
    ensures place { result ≡ spec.place_at (key_of (out-Value key.now)) (map entry_key pairs.now) }
    ensures within { IfSome result (λ at. at ≤ length pairs.now) }
{
    let mut at = pairs.len();
    'places: while at > 0 {
        let before = &pairs[at - 1].key;
        if is_below(key, before) {
            at -= 1;
        } else if is_below(before, key) {
            return Some(at);
        } else {
            return None;
        }
    }
    Some(0)
}

fn put(pairs: &mut Vec<Pair>, at: usize, pair: Pair) -> Result<(), AllocError>
    requires { at ≤ length pairs.old.items }
    ensures { OnOk result (pairs.new.items ≡ insert pairs.old.items at pair) }
{
    pairs.insert(at, pair)?;
    Ok(())
}

/// A key, its place among the entries so far, and its value.
#[cycle(values)]
#[tactic(auto, unfolding(crate::specs::ValueSteps::entry_at))]
fn read_entry(
    alloc: Global,
    room: usize,
    schema: &Schema,
    key: &Ty,
    to: &Ty,
    pairs: &[Pair],
    cursor: &mut Cursor<'_>,
) -> Result<(usize, Pair), Halt>
    ensures entry { Reads result cursor.new (spec.entry_at (spec.value_at room schema.now key.now) (spec.value_at room schema.now to.now) (map entry_key pairs.now) cursor.old) }
    ensures within { IfOk result (λ x. x.0 ≤ length pairs.now) }
{
    let start = cursor.rest();
    let key = read(alloc, room, schema, key, cursor)?;
    let Some(at) = place_of(pairs, &key) else {
        cursor.go_to(start);
        return Err(Halt::Bad(ValueWhy::TwiceKey));
    };
    cursor.gap();
    cursor.sign(b':')?;
    let value = read(alloc, room, schema, to, cursor)?;
    Ok((at, Pair { key, value }))
}

/// The entries of a map up to its end, in the order of their keys.
#[cycle(values)]
fn read_entries(
    alloc: Global,
    room: usize,
    schema: &Schema,
    key: &Ty,
    to: &Ty,
    cursor: &mut Cursor<'_>,
) -> Result<List<Pair>, Halt>
    ensures { Reads result cursor.new (spec.entries_at (spec.value_at room schema.now key.now) (spec.value_at room schema.now to.now) (length cursor.old) [] cursor.old) }
{
    let mut pairs = Vec::new(alloc);
    for _ in 0..cursor.rest().len() {
        let (at, pair) = read_entry(alloc, room, schema, key, to, pairs.as_slice(), cursor)?;
        put(&mut pairs, at, pair)?;
        if cursor.turn(b'}')? {
            return Ok(List::from_vec(pairs));
        }
    }
    Err(cursor.unexpected())
}

#[cycle(values)]
#[tactic(auto, unfolding(crate::specs::ValueSteps::map_at))]
fn read_map(
    alloc: Global,
    room: usize,
    schema: &Schema,
    key: &Ty,
    to: &Ty,
    cursor: &mut Cursor<'_>,
) -> Result<Value, Halt>
    ensures { Reads result cursor.new (spec.map_at (spec.value_at room schema.now key.now) (spec.value_at room schema.now to.now) cursor.old) }
{
    cursor.sign(b'{')?;
    if cursor.closes(b'}') {
        return Ok(Value::Map(List::new(alloc)));
    }
    Ok(Value::Map(read_entries(alloc, room, schema, key, to, cursor)?))
}

/// The elements of a list up to its end.
#[cycle(values)]
fn read_elements(
    alloc: Global,
    room: usize,
    schema: &Schema,
    of: &Ty,
    cursor: &mut Cursor<'_>,
) -> Result<List<Value>, Halt>
    ensures { Reads result cursor.new (spec.elements_at (spec.value_at room schema.now of.now) (length cursor.old) cursor.old) }
{
    let mut values = List::new(alloc);
    for _ in 0..cursor.rest().len() {
        values.push(read(alloc, room, schema, of, cursor)?)?;
        if cursor.turn(b']')? {
            return Ok(values);
        }
    }
    Err(cursor.unexpected())
}

#[cycle(values)]
#[tactic(auto, unfolding(crate::specs::ValueSteps::list_at))]
fn read_list(
    alloc: Global,
    room: usize,
    schema: &Schema,
    of: &Ty,
    cursor: &mut Cursor<'_>,
) -> Result<Value, Halt>
    ensures { Reads result cursor.new (spec.list_at (spec.value_at room schema.now of.now) cursor.old) }
{
    cursor.sign(b'[')?;
    if cursor.closes(b']') {
        return Ok(Value::List(List::new(alloc)));
    }
    Ok(Value::List(read_elements(alloc, room, schema, of, cursor)?))
}

/// A member's name and value.
#[cycle(values)]
#[tactic(auto, unfolding(crate::specs::ValueSteps::field_at))]
fn read_field(
    alloc: Global,
    room: usize,
    schema: &Schema,
    member: &Member,
    cursor: &mut Cursor<'_>,
) -> Result<Value, Halt>
    ensures { Reads result cursor.new (spec.field_at (spec.value_at room schema.now) member.now cursor.old) }
{
    cursor.word(&member.name)?;
    cursor.gap();
    cursor.sign(b'=')?;
    read(alloc, room, schema, &member.ty, cursor)
}

/// The comma before further members.
fn comma(cursor: &mut Cursor<'_>, members: &[Member]) -> Result<(), Halt>
    ensures { Moves result cursor.new (spec.comma_at members.now cursor.old) }
{
    match members {
        [] => Ok(()),
        _ => cursor.sign(b','),
    }
}

/// A value for each member, and the closing sign.
#[cycle(values)]
fn read_fields(
    alloc: Global,
    room: usize,
    schema: &Schema,
    members: &[Member],
    cursor: &mut Cursor<'_>,
) -> Result<List<Value>, Halt>
    ensures { Reads result cursor.new (spec.fields_at (spec.value_at room schema.now) members.now cursor.old) }
{
    let mut values = List::new(alloc);
    let mut left = members;
    while let Some((member, others)) = left.split_first() {
        values.push(read_field(alloc, room, schema, member, cursor)?)?;
        cursor.gap();
        comma(cursor, others)?;
        left = others;
    }
    cursor.byte(b')')?;
    Ok(values)
}

#[cycle(values)]
#[tactic(auto, unfolding(crate::specs::ValueSteps::struct_at))]
fn read_struct(
    alloc: Global,
    room: usize,
    schema: &Schema,
    members: &[Member],
    cursor: &mut Cursor<'_>,
) -> Result<Value, Halt>
    ensures { Reads result cursor.new (spec.struct_at (spec.value_at room schema.now) members.now cursor.old) }
{
    cursor.sign(b'(')?;
    let values = read_fields(alloc, room, schema, members, cursor)?;
    Ok(Value::Struct(values))
}

/// A value, with room for so many others inside it.
#[cycle(values)]
fn read_by_type(
    alloc: Global,
    room: usize,
    schema: &Schema,
    ty: &Ty,
    cursor: &mut Cursor<'_>,
) -> Result<Value, Halt>
    ensures { Reads result cursor.new (spec.value_by schema.now (spec.value_at room schema.now) (out-Ty ty.now) cursor.old) }
{
    match ty {
        Ty::Bool => read_truth(cursor),
        Ty::Text => read_text(alloc, cursor),
        Ty::Vector(of) => match of.get() {
            Ty::Byte => read_blob(alloc, cursor),
            of => read_list(alloc, room, schema, of, cursor),
        },
        Ty::Map(key, to) => read_map(alloc, room, schema, key.get(), to.get(), cursor),
        Ty::Struct(number) => {
            read_struct(alloc, room, schema, schema.members_at(*number), cursor)
        }
        _ => read_number(cursor, schema, ty),
    }
}

/// A value, where there is room for so many, one inside the other. Each takes a byte at least.
#[cycle(values)]
pub(crate) fn read(
    alloc: Global,
    room: usize,
    schema: &Schema,
    ty: &Ty,
    cursor: &mut Cursor<'_>,
) -> Result<Value, Halt>
    ensures { Reads result cursor.new (spec.value_at room schema.now ty.now cursor.old) }
{
    if room == 0 {
        return Err(cursor.unexpected());
    }
    read_by_type(alloc, room - 1, schema, ty, cursor)
}

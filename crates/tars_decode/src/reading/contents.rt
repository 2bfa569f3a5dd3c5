//! What stands after heads, as values of types.

ghost use Rattle.std.specs.Prelude.{◌≡◌, ◌*◌, ◌+◌, ◌<◌, ◌≤◌, ◌^◌, true, [], map, length, IfOk};
ghost use Rattle.tars_model.specs.Values.{keys_rise, entry_key};
ghost use Rattle.tars_model.specs.declared.ty.Ty.{out-Ty};
ghost use Rattle.tars_decode.specs.ReadingSteps.{Gives, step_in, past_at, item_at, element_at, elements_at, list_at, key_at, entry_at, entries_at, map_at, member_at, members_from, struct_at, kind_at, value_at};

use super::defaults::absent;
use super::scope::Scope;
use super::texts::{read_simple, read_text};
use super::vectors::vector_of;
use crate::halt::{Halt, Walk, misfit};
use crate::keys::{add, place};
use crate::numbers::read_number;
use crate::refuse::Misfit;
use crate::seeking::seek;
use crate::skipping::past_end;
use tars_model::{List, Member, Pair, Ty, Value};
use tars_wire::{WireType, split_head, split_size};

/// What stands after a head of this type.
#[cycle(contents)]
#[tactic(auto, using(crate::proofs::Rooms::value_one_more))]
fn read_value<'a>(scope: &Scope, ty: &Ty, kind: WireType, bytes: &'a [u8]) -> Walk<'a, Value>
    ensures { Gives (λ x. (x.0, x.1.now)) result (value_at scope.now.room scope.now.schema.now ty.now kind bytes.now) }
{
    if scope.room == 0 {
        return Err(Halt::Stopped);
    }
    let deeper = Scope {
        alloc: scope.alloc,
        schema: scope.schema,
        room: scope.room - 1,
    };
    read_kind(&deeper, ty, kind, bytes)
}

#[cycle(contents)]
#[tactic(auto, unfolding(crate::specs::ReadingSteps::kind_at))]
fn read_kind<'a>(scope: &Scope, ty: &Ty, kind: WireType, bytes: &'a [u8]) -> Walk<'a, Value>
    ensures { Gives (λ x. (x.0, x.1.now)) result (kind_at (value_at scope.now.room scope.now.schema.now) (past_at scope.now.room) scope.now.schema.now ty.now kind bytes.now) }
{
    match kind {
        WireType::ZeroTag | WireType::Int1 | WireType::Int2 | WireType::Int4 | WireType::Int8 =>
            read_number(scope.alloc, ty, kind, bytes),
        WireType::String1 | WireType::String4 => read_text(scope.alloc, ty, kind, bytes),
        WireType::SimpleList => read_simple(scope.alloc, ty, bytes),
        WireType::List => read_list(scope, ty, bytes),
        WireType::Map => read_map(scope, ty, bytes),
        WireType::StructBegin => read_struct(scope, ty, bytes),
        WireType::Float | WireType::Double | WireType::StructEnd => {
            Err(misfit(scope.alloc, Misfit::WrongType))
        }
    }
}

/// The next field, whatever its tag.
#[cycle(contents)]
#[tactic(auto, unfolding(crate::specs::ReadingSteps::item_at))]
fn read_item<'a>(scope: &Scope, ty: &Ty, bytes: &'a [u8]) -> Walk<'a, Value>
    ensures { Gives (λ x. (x.0, x.1.now)) result (item_at (value_at scope.now.room scope.now.schema.now) ty.now bytes.now) }
{
    let Some((head, rest)) = split_head(bytes) else {
        return Err(Halt::Stopped);
    };
    read_value(scope, ty, head.kind, rest)
}

/// The next field, at a step of the path.
#[cycle(contents)]
#[tactic(auto, unfolding(crate::specs::ReadingSteps::element_at))]
fn read_element<'a>(scope: &Scope, ty: &Ty, step: u32, bytes: &'a [u8]) -> Walk<'a, Value>
    ensures { Gives (λ x. (x.0, x.1.now)) result (element_at (value_at scope.now.room scope.now.schema.now) ty.now step bytes.now) }
{
    match read_item(scope, ty, bytes) {
        Ok(read) => Ok(read),
        Err(halt) => Err(halt.under(scope.alloc, step)),
    }
}

/// So many elements of a list.
#[cycle(contents)]
fn read_elements<'a>(scope: &Scope, of: &Ty, count: u32, bytes: &'a [u8]) -> Walk<'a, List<Value>>
    ensures { Gives (λ x. (x.0, x.1.now)) result (elements_at (value_at scope.now.room scope.now.schema.now) of.now 0 count bytes.now) }
{
    let mut values = List::new(scope.alloc);
    let mut rest = bytes;
    for i in 0..count {
        let (value, after) = read_element(scope, of, i, rest)?;
        values.push(value)?;
        rest = after;
    }
    Ok((values, rest))
}

/// A list.
#[cycle(contents)]
#[tactic(auto, unfolding(crate::specs::ReadingSteps::list_at))]
fn read_list<'a>(scope: &Scope, ty: &Ty, bytes: &'a [u8]) -> Walk<'a, Value>
    ensures { Gives (λ x. (x.0, x.1.now)) result (list_at (value_at scope.now.room scope.now.schema.now) (out-Ty ty.now) bytes.now) }
{
    match ty {
        Ty::Vector(of) => {
            let Some((count, rest)) = split_size(bytes) else {
                return Err(Halt::Stopped);
            };
            let (values, rest) = read_elements(scope, of.get(), count, rest)?;
            Ok((vector_of(scope.alloc, of.get(), values)?, rest))
        }
        _ => Err(misfit(scope.alloc, Misfit::WrongType)),
    }
}

/// A key, with its place among the keys before it.
#[cycle(contents)]
#[tactic(auto, unfolding(crate::specs::ReadingSteps::key_at))]
fn find_key<'a>(
    scope: &Scope,
    key: &Ty,
    pairs: &[Pair],
    bytes: &'a [u8],
) -> Result<(usize, Value, &'a [u8]), Halt>
    requires { keys_rise (map entry_key pairs.now) ≡ true }
    ensures read { Gives (λ x. ((x.0, x.1), x.2.now)) result (key_at (value_at scope.now.room scope.now.schema.now) key.now pairs.now bytes.now) }
    ensures within { IfOk result (λ x. x.0 ≤ length pairs.now) }
{
    let (key, rest) = read_item(scope, key, bytes)?;
    match place(pairs, &key) {
        Some(at) => Ok((at, key, rest)),
        None => Err(misfit(scope.alloc, Misfit::TwiceKey)),
    }
}

/// A key, at a step of the path.
#[cycle(contents)]
fn read_key<'a>(
    scope: &Scope,
    key: &Ty,
    step: u32,
    pairs: &[Pair],
    bytes: &'a [u8],
) -> Result<(usize, Value, &'a [u8]), Halt>
    requires { keys_rise (map entry_key pairs.now) ≡ true }
    ensures read { Gives (λ x. ((x.0, x.1), x.2.now)) result (step_in step (key_at (value_at scope.now.room scope.now.schema.now) key.now pairs.now bytes.now)) }
    ensures within { IfOk result (λ x. x.0 ≤ length pairs.now) }
{
    match find_key(scope, key, pairs, bytes) {
        Ok(read) => Ok(read),
        Err(halt) => Err(halt.under(scope.alloc, step)),
    }
}

/// An entry of a map, with its place among those before it.
#[cycle(contents)]
#[tactic(auto, unfolding(crate::specs::ReadingSteps::entry_at))]
fn read_entry<'a>(
    scope: &Scope,
    key: &Ty,
    to: &Ty,
    index: u32,
    pairs: &[Pair],
    bytes: &'a [u8],
) -> Result<(usize, Pair, &'a [u8]), Halt>
    requires rising { keys_rise (map entry_key pairs.now) ≡ true }
    requires index { index < 2 ^ 31 }
    ensures read { Gives (λ x. ((x.0, x.1), x.2.now)) result (entry_at (value_at scope.now.room scope.now.schema.now) key.now to.now index pairs.now bytes.now) }
    ensures within { IfOk result (λ x. x.0 ≤ length pairs.now) }
{
    let (at, key, rest) = read_key(scope, key, 2 * index, pairs, bytes)?;
    let (value, rest) = read_element(scope, to, 2 * index + 1, rest)?;
    Ok((at, Pair { key, value }, rest))
}

/// So many entries of a map, in the order of their keys.
#[cycle(contents)]
fn read_entries<'a>(
    scope: &Scope,
    key: &Ty,
    to: &Ty,
    count: u32,
    bytes: &'a [u8],
) -> Walk<'a, List<Pair>>
    requires { count < 2 ^ 31 }
    ensures { Gives (λ x. (x.0, x.1.now)) result (entries_at (value_at scope.now.room scope.now.schema.now) key.now to.now 0 count [] bytes.now) }
{
    let mut pairs = Vec::new(scope.alloc);
    let mut rest = bytes;
    for i in 0..count {
        let (at, pair, after) = read_entry(scope, key, to, i, &pairs, rest)?;
        add(&mut pairs, at, pair)?;
        rest = after;
    }
    Ok((List::from_vec(pairs), rest))
}

/// A map.
#[cycle(contents)]
#[tactic(auto, unfolding(crate::specs::ReadingSteps::map_at))]
fn read_map<'a>(scope: &Scope, ty: &Ty, bytes: &'a [u8]) -> Walk<'a, Value>
    ensures { Gives (λ x. (x.0, x.1.now)) result (map_at (value_at scope.now.room scope.now.schema.now) (out-Ty ty.now) bytes.now) }
{
    match ty {
        Ty::Map(key, to) => {
            let Some((count, rest)) = split_size(bytes) else {
                return Err(Halt::Stopped);
            };
            let (pairs, rest) = read_entries(scope, key.get(), to.get(), count, rest)?;
            Ok((Value::Map(pairs), rest))
        }
        _ => Err(misfit(scope.alloc, Misfit::WrongType)),
    }
}

/// The field of a member.
#[cycle(contents)]
fn read_present<'a>(
    scope: &Scope,
    member: &Member,
    kind: WireType,
    bytes: &'a [u8],
) -> Walk<'a, Value>
    ensures { Gives (λ x. (x.0, x.1.now)) result (step_in member.now.tag (value_at scope.now.room scope.now.schema.now member.now.ty kind bytes.now)) }
{
    match read_value(scope, &member.ty, kind, bytes) {
        Ok(read) => Ok(read),
        Err(halt) => Err(halt.under(scope.alloc, u32::from(member.tag))),
    }
}

/// A member, from its field or its default.
#[cycle(contents)]
#[tactic(auto, unfolding(crate::specs::ReadingSteps::member_at))]
fn read_member<'a>(scope: &Scope, member: &Member, bytes: &'a [u8]) -> Walk<'a, Value>
    ensures { Gives (λ x. (x.0, x.1.now)) result (member_at (value_at scope.now.room scope.now.schema.now) (past_at scope.now.room) member.now bytes.now) }
{
    match seek(scope.room, member.tag, bytes)? {
        (Some(kind), rest) => read_present(scope, member, kind, rest),
        (None, rest) => {
            let value = absent(scope.alloc, member)?;
            Ok((value, rest))
        }
    }
}

/// A value for each member.
#[cycle(contents)]
pub fn read_members<'a>(scope: &Scope, members: &[Member], bytes: &'a [u8]) -> Walk<'a, List<Value>>
    ensures { Gives (λ x. (x.0, x.1.now)) result (members_from (value_at scope.now.room scope.now.schema.now) (past_at scope.now.room) members.now bytes.now) }
{
    let mut values = List::new(scope.alloc);
    let mut rest = bytes;
    for member in members {
        let (value, after) = read_member(scope, member, rest)?;
        values.push(value)?;
        rest = after;
    }
    Ok((values, rest))
}

/// A struct.
#[cycle(contents)]
#[tactic(auto, unfolding(crate::specs::ReadingSteps::struct_at))]
fn read_struct<'a>(scope: &Scope, ty: &Ty, bytes: &'a [u8]) -> Walk<'a, Value>
    ensures { Gives (λ x. (x.0, x.1.now)) result (struct_at (value_at scope.now.room scope.now.schema.now) (past_at scope.now.room) scope.now.schema.now (out-Ty ty.now) bytes.now) }
{
    match ty {
        Ty::Struct(number) => {
            let members = scope.schema.members_at(*number);
            let (values, rest) = read_members(scope, members, bytes)?;
            let rest = past_end(scope.room, rest)?;
            Ok((Value::Struct(values), rest))
        }
        _ => Err(misfit(scope.alloc, Misfit::WrongType)),
    }
}

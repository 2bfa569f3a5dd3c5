//! Pieces that are known to stand at the start of bytes: nothing is judged again.

ghost use Rattle.std.specs.Prelude.{◌≡◌, ◌<◌, ◌^◌, IsTrue, IsSome, IsOk, length};
ghost use Rattle.tars_wire.specs.Heads.{opens};
ghost use Rattle.tars_wire.specs.ScanSteps.{contents_at};
ghost use Rattle.tars_wire.specs.PrefixSteps.{head_prefix, bytes_prefix, number_prefix, size_prefix, text_prefix, simple_prefix, entered_prefix};

use crate::head::Head;
use crate::level::Level;
use crate::prefix::{split_bytes, split_head, split_number, split_u8, split_u32};
use crate::scanner::past_contents;
use crate::wire_type::WireType;

/// A head in either form.
pub fn known_head(bytes: &[u8]) -> (Head, &[u8])
    requires { IsSome (head_prefix bytes.now) }
    ensures { head_prefix bytes.now ≡ Some (result.0, result.1.now) }
{
    match split_head(bytes) {
        Some(found) => found,
        None => unreachable!(),
    }
}

/// A whole number of a type.
pub fn known_number(kind: WireType, bytes: &[u8]) -> (i64, &[u8])
    requires { IsSome (number_prefix kind bytes.now) }
    ensures { number_prefix kind bytes.now ≡ Some (result.0, result.1.now) }
{
    match split_number(kind, bytes) {
        Some(found) => found,
        None => unreachable!(),
    }
}

/// So many bytes, and those after them.
fn known_bytes(count: usize, bytes: &[u8]) -> (&[u8], &[u8])
    requires { IsSome (bytes_prefix count bytes.now) }
    ensures { bytes_prefix count bytes.now ≡ Some (result.0.now, result.1.now) }
{
    match split_bytes(count, bytes) {
        Some(found) => found,
        None => unreachable!(),
    }
}

/// A size: how many bytes, values or pairs follow.
#[tactic(auto, unfolding(crate::specs::PrefixSteps::size_prefix))]
fn known_size(bytes: &[u8]) -> (u32, &[u8])
    requires { IsSome (size_prefix bytes.now) }
    ensures is { size_prefix bytes.now ≡ Some (result.0, result.1.now) }
    ensures below { result.0 < 2 ^ 31 }
{
    let (head, rest) = known_head(bytes);
    let (number, rest) = known_number(head.kind, rest);
    (number as u32, rest)
}

/// The bytes of a string.
#[tactic(auto, unfolding(crate::specs::PrefixSteps::text_prefix))]
pub fn known_text(kind: WireType, bytes: &[u8]) -> (&[u8], &[u8])
    requires { IsSome (text_prefix kind bytes.now) }
    ensures { text_prefix kind bytes.now ≡ Some (result.0.now, result.1.now) }
{
    match kind {
        WireType::String1 => match split_u8(bytes) {
            Some((size, rest)) => known_bytes(usize::from(size), rest),
            None => unreachable!(),
        },
        WireType::String4 => match split_u32(bytes) {
            Some((size, rest)) => known_bytes(size as usize, rest),
            None => unreachable!(),
        },
        _ => unreachable!(),
    }
}

/// The bytes of a simple list.
#[tactic(auto, unfolding(crate::specs::PrefixSteps::simple_prefix))]
pub fn known_simple(bytes: &[u8]) -> (&[u8], &[u8])
    requires { IsSome (simple_prefix bytes.now) }
    ensures { simple_prefix bytes.now ≡ Some (result.0.now, result.1.now) }
{
    let (_, rest) = known_head(bytes);
    let (size, rest) = known_size(rest);
    known_bytes(size as usize, rest)
}

/// What is open after the head of a list, a map or a struct, and how many values or pairs it has.
#[tactic(auto, unfolding(crate::specs::PrefixSteps::entered_prefix))]
pub fn enter_level(kind: WireType, bytes: &[u8]) -> (Level, u32, &[u8])
    requires { IsSome (entered_prefix kind bytes.now) }
    ensures { entered_prefix kind bytes.now ≡ Some (result.0, result.1, result.2.now) }
{
    if kind == WireType::StructBegin {
        return (Level::Struct, 0, bytes);
    }
    let (size, rest) = known_size(bytes);
    if kind == WireType::Map {
        return (Level::Map { left: 2 * size }, size, rest);
    }
    (Level::List { left: size }, size, rest)
}

/// Past what stands after a head of this type.
pub fn past_value(room: u8, kind: WireType, bytes: &[u8]) -> &[u8]
    requires deep { IsTrue (opens kind) → 0 < room }
    requires is { IsOk (contents_at room kind bytes.now) }
    ensures { contents_at room kind bytes.now ≡ Ok result.now }
{
    match past_contents(room, kind, bytes) {
        Ok(rest) => rest,
        Err(_) => unreachable!(),
    }
}

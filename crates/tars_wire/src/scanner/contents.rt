ghost use Rattle.std.specs.Prelude.{◌≡◌, ◌<◌, ◌≤◌, IsTrue, length, IfOk};
ghost use Rattle.std.specs.Int.{w8, w32};
ghost use Rattle.tars_wire.specs.Heads.{opens};
ghost use Rattle.tars_wire.specs.MachineSteps.{of_values, of_pairs};
ghost use Rattle.tars_wire.specs.ScanSteps.{Gives, text_at, simple_list_at, sized_at, counted_at, fields_at, contents_at, item_at, pair_at};

use super::heads::read_head;
use super::numbers::{past, read_size, read_u8, read_u32};
use crate::head_context::HeadContext;
use crate::stop::Stop;
use crate::wire_type::WireType;

/// Past a text with a length of one byte.
#[tactic(auto, unfolding(crate::specs::ScanSteps::text_at))]
fn past_short_text(bytes: &[u8]) -> Result<&[u8], Stop>
    ensures { Gives (λ x. x.now) result (text_at w8 bytes.now) }
{
    let (size, rest) = read_u8(bytes)?;
    past(size, rest)
}

/// Past a text with a length of four bytes.
#[tactic(auto, unfolding(crate::specs::ScanSteps::text_at))]
fn past_long_text(bytes: &[u8]) -> Result<&[u8], Stop>
    ensures { Gives (λ x. x.now) result (text_at w32 bytes.now) }
{
    let (size, rest) = read_u32(bytes)?;
    past(size, rest)
}

/// Past the bytes of a simple list.
#[tactic(auto, unfolding(crate::specs::ScanSteps::simple_list_at))]
fn past_simple_list(bytes: &[u8]) -> Result<&[u8], Stop>
    ensures { Gives (λ x. x.now) result (simple_list_at bytes.now) }
{
    let (_, rest) = read_head(HeadContext::Simple, bytes)?;
    let (size, rest) = read_size(rest)?;
    past(size, rest)
}

/// Past what stands after a head of this type. `room` is how many lists, maps and structs may be opened
/// inside one another.
#[cycle(contents)]
#[tactic(auto, unfolding(crate::specs::ScanSteps::contents_at, crate::specs::ScanSteps::sized_at))]
pub fn past_contents(room: u8, kind: WireType, bytes: &[u8]) -> Result<&[u8], Stop>
    requires { IsTrue (opens kind) → 0 < room }
    ensures { Gives (λ x. x.now) result (contents_at room kind bytes.now) }
{
    match kind {
        WireType::Int1 => past(1, bytes),
        WireType::Int2 => past(2, bytes),
        WireType::Int4 => past(4, bytes),
        WireType::Int8 => past(8, bytes),
        WireType::Float => past(4, bytes),
        WireType::Double => past(8, bytes),
        WireType::String1 => past_short_text(bytes),
        WireType::String4 => past_long_text(bytes),
        WireType::Map => {
            let (count, rest) = read_size(bytes)?;
            past_pairs(room - 1, count, rest)
        }
        WireType::List => {
            let (count, rest) = read_size(bytes)?;
            past_values(room - 1, count, rest)
        }
        WireType::StructBegin => past_fields(room - 1, bytes),
        WireType::StructEnd => Ok(bytes),
        WireType::ZeroTag => Ok(bytes),
        WireType::SimpleList => past_simple_list(bytes),
    }
}

/// Past an element, a key or a map's value.
#[cycle(contents)]
#[tactic(auto, unfolding(crate::specs::ScanSteps::item_at), using(crate::proofs::Scanning::Remainders::item_room))]
fn past_item(tag: u8, room: u8, bytes: &[u8]) -> Result<&[u8], Stop>
    ensures { Gives (λ x. x.now) result (item_at tag room bytes.now) }
{
    let (head, rest) = read_head(HeadContext::Item { tag, room }, bytes)?;
    past_contents(room, head.kind, rest)
}

/// Past so many elements of a list.
#[cycle(contents)]
fn past_values(room: u8, count: usize, bytes: &[u8]) -> Result<&[u8], Stop>
    ensures { Gives (λ x. x.now) result (counted_at (of_values room) count bytes.now) }
{
    let mut rest = bytes;
    for _ in 0..count {
        rest = past_item(0, room, rest)?;
    }
    Ok(rest)
}

/// Past so many keys of a map, each with its value.
#[cycle(contents)]
fn past_pairs(room: u8, count: usize, bytes: &[u8]) -> Result<&[u8], Stop>
    ensures { Gives (λ x. x.now) result (counted_at (of_pairs room) count bytes.now) }
{
    let mut rest = bytes;
    for _ in 0..count {
        rest = past_pair(room, rest)?;
    }
    Ok(rest)
}

/// Past a key and its value.
#[cycle(contents)]
#[tactic(auto, unfolding(crate::specs::ScanSteps::pair_at))]
fn past_pair(room: u8, bytes: &[u8]) -> Result<&[u8], Stop>
    ensures { Gives (λ x. x.now) result (pair_at room bytes.now) }
{
    let rest = past_item(0, room, bytes)?;
    past_item(1, room, rest)
}

/// Past the fields of a struct and its end.
#[cycle(contents)]
fn past_fields(room: u8, bytes: &[u8]) -> Result<&[u8], Stop>
    ensures { Gives (λ x. x.now) result (fields_at 0 room bytes.now) }
{
    let mut rest = bytes;
    let mut from = 0;
    loop {
        let (head, after) = read_head(HeadContext::Struct { from, room }, rest)?;
        if head.kind.is_end() {
            return Ok(after);
        }
        rest = past_contents(room, head.kind, after)?;
        from = u16::from(head.tag) + 1;
    }
}

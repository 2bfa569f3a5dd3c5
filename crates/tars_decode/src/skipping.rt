//! Past what is not read.

ghost use Rattle.std.specs.Prelude.{◌≡◌, ◌*◌, ◌<◌, ◌^◌};
ghost use Rattle.tars_decode.specs.ReadingSteps.{Gives, MOST_TURNS, skip_at, field_past, counted_past, end_turn_at, end_at, text_past, simple_past, sized_past, kind_past, past_at};

use crate::halt::Halt;
use tars_wire::{WireType, split_bytes, split_head, split_simple, split_size, split_text};

/// The most fields of a struct, and one more turn for its end.
const MOST_TURNS: u16 = 257;

/// Past so many bytes.
#[tactic(auto, unfolding(crate::specs::ReadingSteps::skip_at))]
fn skip(count: usize, bytes: &[u8]) -> Result<&[u8], Halt>
    ensures { Gives (λ x. x.now) result (skip_at count bytes.now) }
{
    match split_bytes(count, bytes) {
        Some((_, rest)) => Ok(rest),
        None => Err(Halt::Stopped),
    }
}

#[tactic(auto, unfolding(crate::specs::ReadingSteps::text_past))]
fn past_text(kind: WireType, bytes: &[u8]) -> Result<&[u8], Halt>
    ensures { Gives (λ x. x.now) result (text_past kind bytes.now) }
{
    match split_text(kind, bytes) {
        Some((_, rest)) => Ok(rest),
        None => Err(Halt::Stopped),
    }
}

#[tactic(auto, unfolding(crate::specs::ReadingSteps::simple_past))]
fn past_simple(bytes: &[u8]) -> Result<&[u8], Halt>
    ensures { Gives (λ x. x.now) result (simple_past bytes.now) }
{
    match split_simple(bytes) {
        Some((_, rest)) => Ok(rest),
        None => Err(Halt::Stopped),
    }
}

/// Past what stands after a head of this type. `room` is one more than how many lists, maps and structs may be
/// opened inside one another.
#[cycle(past)]
#[tactic(auto, using(crate::proofs::Rooms::past_one_more))]
pub fn past_contents(room: u8, kind: WireType, bytes: &[u8]) -> Result<&[u8], Halt>
    ensures { Gives (λ x. x.now) result (past_at room kind bytes.now) }
{
    if room == 0 {
        return Err(Halt::Stopped);
    }
    past_kind(room - 1, kind, bytes)
}

#[cycle(past)]
#[tactic(auto, unfolding(crate::specs::ReadingSteps::kind_past))]
fn past_kind(room: u8, kind: WireType, bytes: &[u8]) -> Result<&[u8], Halt>
    ensures { Gives (λ x. x.now) result (kind_past (past_at room) kind bytes.now) }
{
    match kind {
        WireType::ZeroTag => Ok(bytes),
        WireType::Int1 => skip(1, bytes),
        WireType::Int2 => skip(2, bytes),
        WireType::Int4 | WireType::Float => skip(4, bytes),
        WireType::Int8 | WireType::Double => skip(8, bytes),
        WireType::String1 | WireType::String4 => past_text(kind, bytes),
        WireType::SimpleList => past_simple(bytes),
        WireType::List => past_sized(room, 1, bytes),
        WireType::Map => past_sized(room, 2, bytes),
        WireType::StructBegin => past_end(room, bytes),
        WireType::StructEnd => Err(Halt::Stopped),
    }
}

/// Past a size, and so many fields for each that it counts.
#[cycle(past)]
#[tactic(auto, unfolding(crate::specs::ReadingSteps::sized_past))]
fn past_sized(room: u8, each: u64, bytes: &[u8]) -> Result<&[u8], Halt>
    requires { each < 3 }
    ensures { Gives (λ x. x.now) result (sized_past (past_at room) each bytes.now) }
{
    let Some((count, rest)) = split_size(bytes) else {
        return Err(Halt::Stopped);
    };
    past_counted(room, each * u64::from(count), rest)
}

/// Past the next field.
#[cycle(past)]
#[tactic(auto, unfolding(crate::specs::ReadingSteps::field_past))]
fn past_field(room: u8, bytes: &[u8]) -> Result<&[u8], Halt>
    ensures { Gives (λ x. x.now) result (field_past (past_at room) bytes.now) }
{
    let Some((head, rest)) = split_head(bytes) else {
        return Err(Halt::Stopped);
    };
    past_contents(room, head.kind, rest)
}

/// Past so many fields.
#[cycle(past)]
fn past_counted(room: u8, count: u64, bytes: &[u8]) -> Result<&[u8], Halt>
    ensures { Gives (λ x. x.now) result (counted_past (past_at room) count bytes.now) }
{
    let mut rest = bytes;
    for _ in 0..count {
        rest = past_field(room, rest)?;
    }
    Ok(rest)
}

/// One field further, or past the end of a struct, which it tells.
#[cycle(past)]
#[tactic(auto, unfolding(crate::specs::ReadingSteps::end_turn_at))]
fn end_turn(room: u8, bytes: &[u8]) -> Result<(bool, &[u8]), Halt>
    ensures { Gives (λ x. (x.0, x.1.now)) result (end_turn_at (past_at room) bytes.now) }
{
    let Some((head, rest)) = split_head(bytes) else {
        return Err(Halt::Stopped);
    };
    if head.kind.is_end() {
        return Ok((true, rest));
    }
    let after = past_contents(room, head.kind, rest)?;
    Ok((false, after))
}

/// Past the fields of a struct and its end.
#[cycle(past)]
pub fn past_end(room: u8, bytes: &[u8]) -> Result<&[u8], Halt>
    ensures { Gives (λ x. x.now) result (end_at (past_at room) MOST_TURNS bytes.now) }
{
    let mut rest = bytes;
    for _ in 0..MOST_TURNS {
        let (ended, after) = end_turn(room, rest)?;
        if ended {
            return Ok(after);
        }
        rest = after;
    }
    Err(Halt::Stopped)
}

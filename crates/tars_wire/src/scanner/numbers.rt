ghost use Rattle.std.specs.Prelude.{◌≡◌};
ghost use Rattle.std.specs.Int.{w8, w16, w32};
ghost use Rattle.tars_wire.specs.ScanSteps.{Gives, past, unsigned_at, not_negative, size_number, size_at};

use super::heads::read_head;
use crate::head_context::HeadContext;
use crate::prefix::{split_bytes, split_u8, split_u16, split_u32};
use crate::stop::{SHORT, Stop};
use crate::wire_fault::WireWhy;
use crate::wire_type::WireType;

/// Past so many bytes.
#[tactic(auto, unfolding(crate::specs::ScanSteps::past))]
pub fn past(count: usize, bytes: &[u8]) -> Result<&[u8], Stop>
    ensures { Gives (λ x. x.now) result (past count bytes.now) }
{
    match split_bytes(count, bytes) {
        Some((_, rest)) => Ok(rest),
        None => Err(SHORT),
    }
}

#[tactic(auto, unfolding(crate::specs::ScanSteps::unsigned_at))]
pub fn read_u8(bytes: &[u8]) -> Result<(usize, &[u8]), Stop>
    ensures { Gives (λ x. (x.0, x.1.now)) result (unsigned_at w8 bytes.now) }
{
    match split_u8(bytes) {
        Some((number, rest)) => Ok((usize::from(number), rest)),
        None => Err(SHORT),
    }
}

#[tactic(auto, unfolding(crate::specs::ScanSteps::unsigned_at))]
fn read_u16(bytes: &[u8]) -> Result<(usize, &[u8]), Stop>
    ensures { Gives (λ x. (x.0, x.1.now)) result (unsigned_at w16 bytes.now) }
{
    match split_u16(bytes) {
        Some((number, rest)) => Ok((usize::from(number), rest)),
        None => Err(SHORT),
    }
}

#[tactic(auto, unfolding(crate::specs::ScanSteps::unsigned_at))]
pub fn read_u32(bytes: &[u8]) -> Result<(usize, &[u8]), Stop>
    ensures { Gives (λ x. (x.0, x.1.now)) result (unsigned_at w32 bytes.now) }
{
    match split_u32(bytes) {
        Some((number, rest)) => Ok((number as usize, rest)),
        None => Err(SHORT),
    }
}

/// The same bytes, if they begin a number that is not negative.
#[tactic(auto, unfolding(crate::specs::ScanSteps::not_negative))]
fn not_negative(bytes: &[u8]) -> Result<&[u8], Stop>
    ensures { Gives (λ x. x.now) result (not_negative bytes.now) }
{
    let [first, ..] = bytes else {
        return Err(SHORT);
    };
    if *first < 128 {
        Ok(bytes)
    } else {
        Err(Stop {
            left: bytes.len(),
            why: WireWhy::BadSize,
        })
    }
}

/// The number of a size whose head is read.
#[tactic(auto, unfolding(crate::specs::ScanSteps::size_number))]
fn read_size_number(kind: WireType, bytes: &[u8]) -> Result<(usize, &[u8]), Stop>
    ensures { Gives (λ x. (x.0, x.1.now)) result (size_number kind bytes.now) }
{
    match kind {
        WireType::Int1 => read_u8(not_negative(bytes)?),
        WireType::Int2 => read_u16(not_negative(bytes)?),
        WireType::Int4 => read_u32(not_negative(bytes)?),
        _ => Ok((0, bytes)),
    }
}

/// A size: how many bytes, values or pairs follow.
#[tactic(auto, unfolding(crate::specs::ScanSteps::size_at))]
pub fn read_size(bytes: &[u8]) -> Result<(usize, &[u8]), Stop>
    ensures { Gives (λ x. (x.0, x.1.now)) result (size_at bytes.now) }
{
    let (head, rest) = read_head(HeadContext::Size, bytes)?;
    read_size_number(head.kind, rest)
}

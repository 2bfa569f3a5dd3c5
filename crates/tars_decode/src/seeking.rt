//! The field of a member's tag, past those before it.

ghost use Rattle.std.specs.Prelude.{◌≡◌, ◌+◌};
ghost use Rattle.tars_decode.specs.ReadingSteps.{Gives, past_at, meet_at, turn_at, seek_at};

use crate::halt::Halt;
use crate::skipping::past_contents;
use tars_wire::{WireType, split_head};

/// How the next field stands to the one of a tag.
#[derive(Clone, Copy)]
pub enum Meeting {
    /// It is that field.
    Here(WireType),
    /// It stands before it.
    Before(WireType),
    /// There is no such field from here on.
    Absent,
}

/// What came of one field.
#[derive(Clone, Copy)]
pub enum Turn {
    /// The field of the tag, if there is one, is here.
    Ends(Option<WireType>),
    /// It is further on.
    GoesOn,
}

/// Whether the next field is the one of the tag.
#[tactic(auto, unfolding(crate::specs::ReadingSteps::meet_at))]
fn meet(tag: u8, bytes: &[u8]) -> Result<(Meeting, &[u8]), Halt>
    ensures { Gives (λ x. (x.0, x.1.now)) result (meet_at tag bytes.now) }
{
    if bytes.is_empty() {
        return Ok((Meeting::Absent, bytes));
    }
    let Some((head, rest)) = split_head(bytes) else {
        return Err(Halt::Stopped);
    };
    if head.kind.is_end() || tag < head.tag {
        return Ok((Meeting::Absent, bytes));
    }
    if head.tag == tag {
        return Ok((Meeting::Here(head.kind), rest));
    }
    Ok((Meeting::Before(head.kind), rest))
}

/// One field further.
#[tactic(auto, unfolding(crate::specs::ReadingSteps::turn_at))]
fn one_turn(room: u8, tag: u8, bytes: &[u8]) -> Result<(Turn, &[u8]), Halt>
    ensures { Gives (λ x. (x.0, x.1.now)) result (turn_at (past_at room) tag bytes.now) }
{
    match meet(tag, bytes)? {
        (Meeting::Here(kind), rest) => Ok((Turn::Ends(Some(kind)), rest)),
        (Meeting::Absent, rest) => Ok((Turn::Ends(None), rest)),
        (Meeting::Before(kind), rest) => {
            let after = past_contents(room, kind, rest)?;
            Ok((Turn::GoesOn, after))
        }
    }
}

/// The contents of the field of a tag and their type, or the field before which it would stand. Tags rise, so at
/// most as many fields as the tag is high stand before it.
pub fn seek(room: u8, tag: u8, bytes: &[u8]) -> Result<(Option<WireType>, &[u8]), Halt>
    ensures { Gives (λ x. (x.0, x.1.now)) result (seek_at (past_at room) tag (tag + 1) bytes.now) }
{
    let mut rest = bytes;
    for _ in 0..u16::from(tag) + 1 {
        match one_turn(room, tag, rest)? {
            (Turn::Ends(found), after) => return Ok((found, after)),
            (Turn::GoesOn, after) => rest = after,
        }
    }
    Ok((None, rest))
}

ghost use Rattle.std.specs.Prelude.{◌≡◌, ◌<◌, true};
ghost use Rattle.tars_wire.specs.Spelled.{ALL};
ghost use Rattle.tars_wire.specs.MachineSteps.{order_fault, wrong_tag, takes, tag_fault, is_full, is_deep, short_fault, long_fault, judged_byte, first_byte};

use crate::head::{FirstByte, Head, LONG_FORM, MAX_FIELD_TAG, halves};
use crate::wire_fault::WireWhy;
use crate::wire_type::WireType;

/// How many lists, maps and structs may stand inside one another.
pub const MAX_OPEN: u8 = 64;

/// Where a head is read, and so which types and tags may stand there.
#[derive(Clone, Copy)]
pub enum HeadContext {
    /// A field of the body, with a tag of at least this.
    Body { from: u16 },
    /// A field of a struct, with a tag of at least this, or the struct's end. `room` is how many lists,
    /// maps and structs may still be opened inside one another.
    Struct { from: u16, room: u8 },
    /// An element, a key or a map's value.
    Item { tag: u8, room: u8 },
    /// The size of a list, a map or a simple list.
    Size,
    /// A simple list's own head.
    Simple,
}

fn order_fault(from: u16, tag: u8) -> Option<WireWhy>
    ensures { result ≡ order_fault true from tag }
{
    if from <= u16::from(tag) || tag == MAX_FIELD_TAG {
        None
    } else {
        Some(WireWhy::Order)
    }
}

fn wrong_tag(wanted: u8, tag: u8) -> Option<WireWhy>
    ensures { result ≡ wrong_tag true wanted tag }
{
    if tag == wanted {
        None
    } else {
        Some(WireWhy::BadTag)
    }
}

impl HeadContext {
    /// Whether a head of this type may stand here.
    #[tactic(auto, unfolding(crate::specs::MachineSteps::takes))]
    fn takes(self, kind: WireType) -> bool
        ensures { result ≡ takes self kind }
    {
        match self {
            HeadContext::Body { .. } => !kind.is_end(),
            HeadContext::Struct { .. } => true,
            HeadContext::Item { .. } => !kind.is_end(),
            HeadContext::Size => kind.is_size(),
            HeadContext::Simple => kind == WireType::Int1,
        }
    }

    /// What is wrong with a tag here. The last tag of all is judged at the head's first byte (`is_full`).
    #[tactic(auto, unfolding(crate::specs::MachineSteps::tag_fault))]
    pub fn tag_fault(self, kind: WireType, tag: u8) -> Option<WireWhy>
        ensures { result ≡ tag_fault ALL self kind tag }
    {
        match self {
            HeadContext::Body { from } => order_fault(from, tag),
            HeadContext::Struct { from, .. } => {
                if kind.is_end() {
                    wrong_tag(0, tag)
                } else {
                    order_fault(from, tag)
                }
            }
            HeadContext::Item { tag: wanted, .. } => wrong_tag(wanted, tag),
            HeadContext::Size => wrong_tag(0, tag),
            HeadContext::Simple => wrong_tag(0, tag),
        }
    }

    /// Whether no tag is left for a field, since the one before had the last.
    #[tactic(auto, unfolding(crate::specs::MachineSteps::is_full))]
    fn is_full(self, kind: WireType) -> bool
        ensures { result ≡ is_full ALL self kind }
    {
        match self {
            HeadContext::Body { from } => from > u16::from(MAX_FIELD_TAG),
            HeadContext::Struct { from, .. } => !kind.is_end() && from > u16::from(MAX_FIELD_TAG),
            _ => false,
        }
    }

    /// Whether a list, map or struct would be one too many inside one another.
    #[tactic(auto, unfolding(crate::specs::MachineSteps::is_deep))]
    fn is_deep(self, kind: WireType) -> bool
        ensures { result ≡ is_deep ALL self kind }
    {
        match self {
            HeadContext::Struct { room, .. } => kind.opens() && room == 0,
            HeadContext::Item { room, .. } => kind.opens() && room == 0,
            _ => false,
        }
    }

    #[tactic(auto, unfolding(crate::specs::MachineSteps::short_fault))]
    fn short_fault(self, kind: WireType, tag: u8) -> Option<WireWhy>
        ensures { result ≡ short_fault ALL self kind tag }
    {
        if let Some(fault) = self.tag_fault(kind, tag) {
            return Some(fault);
        }
        if self.is_deep(kind) {
            Some(WireWhy::Depth)
        } else {
            None
        }
    }

    #[tactic(auto, unfolding(crate::specs::MachineSteps::long_fault))]
    fn long_fault(self, kind: WireType) -> Option<WireWhy>
        ensures { result ≡ long_fault ALL self kind }
    {
        if self.is_full(kind) {
            return Some(WireWhy::Order);
        }
        if self.is_deep(kind) {
            Some(WireWhy::Depth)
        } else {
            None
        }
    }

    /// What the first byte of a head says here, by its type and its high four bits: the type is judged
    /// first, then the tag where the byte holds it, then the depth.
    #[tactic(auto, unfolding(crate::specs::MachineSteps::judged_byte))]
    #[inline(always)]
    fn judged_byte(self, kind: WireType, high: u8) -> Result<FirstByte, WireWhy>
        ensures { result ≡ judged_byte ALL self kind high }
    {
        if !self.takes(kind) {
            return Err(WireWhy::BadType);
        }
        if high == LONG_FORM {
            match self.long_fault(kind) {
                None => Ok(FirstByte::Long(kind)),
                Some(fault) => Err(fault),
            }
        } else {
            match self.short_fault(kind, high) {
                None => Ok(FirstByte::Whole(Head { tag: high, kind })),
                Some(fault) => Err(fault),
            }
        }
    }

    /// What the first byte of a head says here.
    #[tactic(auto, unfolding(crate::specs::MachineSteps::first_byte))]
    #[inline(always)]
    pub fn first_byte(self, byte: u8) -> Result<FirstByte, WireWhy>
        ensures { result ≡ first_byte ALL self byte }
    {
        let (kind, high) = halves(byte);
        match kind {
            None => Err(WireWhy::BadType),
            Some(kind) => self.judged_byte(kind, high),
        }
    }
}

ghost use Rattle.std.specs.Prelude.{◌≡◌, ◌<◌, ◌/◌, ◌%◌};
ghost use Rattle.tars_wire.specs.Heads.{type_of};

use crate::wire_type::WireType;

/// The high four bits of a head whose tag is in a byte of its own.
pub const LONG_FORM: u8 = 15;

/// The highest tag.
pub const MAX_FIELD_TAG: u8 = u8::MAX;

/// How a field begins: its tag, and how its contents are spelled.
#[derive(Clone, Copy, PartialEq, Eq)]
pub struct Head {
    pub tag: u8,
    pub kind: WireType,
}

/// What the first byte of a head says.
#[derive(Clone, Copy)]
pub enum FirstByte {
    /// It is the whole head.
    Whole(Head),
    /// The next byte is the tag.
    Long(WireType),
}

/// The type in the low four bits of a head's first byte, if there is such a type, and its high four bits.
pub fn halves(byte: u8) -> (Option<WireType>, u8)
    ensures low { result.0 ≡ type_of (byte % 16) }
    ensures high { result.1 ≡ byte / 16 }
{
    (WireType::try_from(byte % 16).ok(), byte / 16)
}

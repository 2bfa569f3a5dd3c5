ghost use Rattle.std.specs.Prelude.{◌≡◌, ◌<◌};
ghost use Rattle.tars_wire.specs.Heads.{Decodes, code_of, opens, is_end};
ghost use Rattle.tars_wire.specs.MachineSteps.{is_size};

/// How the contents of a field are spelled: the low four bits of its head (docs/PROTOCOL.md,
/// "Contents").
#[derive(Clone, Copy, Debug, PartialEq, Eq)]
pub enum WireType {
    Int1 = 0,
    Int2 = 1,
    Int4 = 2,
    Int8 = 3,
    Float = 4,
    Double = 5,
    String1 = 6,
    String4 = 7,
    Map = 8,
    List = 9,
    StructBegin = 10,
    StructEnd = 11,
    ZeroTag = 12,
    SimpleList = 13,
}

/// A code under which nothing is spelled: 14 or 15, or more than four bits hold.
#[derive(Clone, Copy, PartialEq, Eq)]
pub struct UnknownType(pub u8);

impl TryFrom<u8> for WireType {
    type Error = UnknownType;

    ghost try_from_gives = { Decodes };

    #[tactic(auto, unfolding(crate::specs::Heads::type_of))]
    fn try_from(code: u8) -> Result<Self, UnknownType> {
        match code {
            0 => Ok(WireType::Int1),
            1 => Ok(WireType::Int2),
            2 => Ok(WireType::Int4),
            3 => Ok(WireType::Int8),
            4 => Ok(WireType::Float),
            5 => Ok(WireType::Double),
            6 => Ok(WireType::String1),
            7 => Ok(WireType::String4),
            8 => Ok(WireType::Map),
            9 => Ok(WireType::List),
            10 => Ok(WireType::StructBegin),
            11 => Ok(WireType::StructEnd),
            12 => Ok(WireType::ZeroTag),
            13 => Ok(WireType::SimpleList),
            _ => Err(UnknownType(code)),
        }
    }
}

impl WireType {
    pub fn code(self) -> u8
        ensures value { result ≡ code_of self }
        ensures below { result < 16 }
    {
        self as u8
    }

    /// Whether a value of this type is a list, a map or a struct, which count towards the depth.
    pub fn opens(self) -> bool
        ensures { result ≡ opens self }
    {
        matches!(self, WireType::Map | WireType::List | WireType::StructBegin)
    }

    /// Whether a size may be of this type.
    pub fn is_size(self) -> bool
        ensures { result ≡ is_size self }
    {
        matches!(
            self,
            WireType::ZeroTag | WireType::Int1 | WireType::Int2 | WireType::Int4
        )
    }

    /// Whether it ends a struct, and is no field.
    pub fn is_end(self) -> bool
        ensures { result ≡ is_end self }
    {
        matches!(self, WireType::StructEnd)
    }
}

ghost use Rattle.std.specs.Prelude.{◌≡◌};
ghost use Rattle.idl_parse.specs.declared.parse_fault.ParseFault.TheVariants.{Memory as no_memory};
ghost use Rattle.idl_parse.specs.ParseWhy.{number_of};

use std::alloc::AllocError;

/// Why tokens are no file (docs/IDL.md, "Faults of the grammar").
#[derive(Clone, Copy, Debug, PartialEq, Eq)]
pub enum ParseFault {
    /// The first byte of the token at fault, or the text's length where it ends too early.
    Bad { at: u32, why: ParseWhy },
    Memory,
}

/// What is wrong at the offset of a fault.
#[derive(Clone, Copy, Debug, PartialEq, Eq)]
pub enum ParseWhy {
    /// No file goes on with this token, or at the end the file is not complete.
    Unexpected,
    /// A type begins inside sixteen others.
    TooDeep,
}

impl ParseWhy {
    /// The number under which it is reported.
    pub fn number(self) -> u8
        ensures { result ≡ number_of self }
    {
        match self {
            ParseWhy::Unexpected => 5,
            ParseWhy::TooDeep => 6,
        }
    }
}

impl From<AllocError> for ParseFault {
    ghost from_gives = { λ _ e. e ≡ no_memory };

    fn from(_: AllocError) -> Self {
        ParseFault::Memory
    }
}

ghost use Rattle.std.specs.Prelude.{◌≡◌};
ghost use Rattle.idl_lex.specs.declared.lex_fault.LexFault.TheVariants.{Memory as no_memory};
ghost use Rattle.idl_lex.specs.LexWhy.{number_of};

use std::alloc::AllocError;

/// Why a text has no tokens (docs/IDL.md, "Tokens").
#[derive(Clone, Copy, Debug, PartialEq, Eq)]
pub enum LexFault {
    /// The first fault from the left, and the byte of the text that it stands at.
    Bad { at: u32, why: LexWhy },
    Memory,
}

/// What is wrong at the offset of a fault.
#[derive(Clone, Copy, Debug, PartialEq, Eq)]
pub enum LexWhy {
    /// A byte that begins no token, or the backslash of an escape that is none.
    BadByte,
    /// The `/*` of a comment without an end.
    OpenComment,
    /// The quote of a text that a line feed or the end cuts.
    OpenText,
    /// The first byte of a number out of range, or of one that a letter or `_` follows, or of a `0x`
    /// without digits.
    BadNumber,
}

impl LexWhy {
    /// The number under which it is reported.
    pub fn number(self) -> u8
        ensures { result ≡ number_of self }
    {
        match self {
            LexWhy::BadByte => 1,
            LexWhy::OpenComment => 2,
            LexWhy::OpenText => 3,
            LexWhy::BadNumber => 4,
        }
    }
}

impl From<AllocError> for LexFault {
    ghost from_gives = { λ _ e. e ≡ no_memory };

    fn from(_: AllocError) -> Self {
        LexFault::Memory
    }
}

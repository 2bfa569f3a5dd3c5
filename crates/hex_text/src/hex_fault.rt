ghost use Rattle.std.specs.Prelude.{◌≡◌};
ghost use Rattle.hex_text.specs.declared.hex_fault.HexFault.TheVariants.{Memory as no_memory};

use std::alloc::{AllocError, AllocFailed};

/// Why a text gives no bytes.
#[derive(Clone, Copy)]
pub enum HexFault {
    /// The first byte after which no hexadecimal text goes on, or the text's length where it ends inside a pair.
    Bad { at: u32 },
    Memory,
}

impl From<AllocError> for HexFault {
    ghost from_gives = { λ _ e. e ≡ no_memory };

    fn from(_: AllocError) -> Self {
        HexFault::Memory
    }
}

impl<T: Drop> From<AllocFailed<T>> for HexFault {
    ghost from_gives = { λ _ e. e ≡ no_memory };

    fn from(_: AllocFailed<T>) -> Self {
        HexFault::Memory
    }
}

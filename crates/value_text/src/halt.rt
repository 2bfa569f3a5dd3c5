ghost use Rattle.std.specs.Prelude.{◌≡◌};
ghost use Rattle.value_text.specs.declared.halt.Halt.TheVariants.{Memory as no_memory};

use crate::value_fault::ValueWhy;
use std::alloc::AllocError;

/// Why reading stops: what is wrong with the bytes that are left then, or no memory.
#[derive(Clone, Copy)]
pub(crate) enum Halt {
    Bad(ValueWhy),
    Memory,
}

impl From<AllocError> for Halt {
    ghost from_gives = { λ _ e. e ≡ no_memory };

    fn from(_: AllocError) -> Self {
        Halt::Memory
    }
}

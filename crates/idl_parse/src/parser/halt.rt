ghost use Rattle.std.specs.Prelude.{◌≡◌};
ghost use Rattle.idl_parse.specs.declared.parser.halt.Halt.TheVariants.{Memory as no_memory};

use crate::parse_fault::ParseWhy;
use std::alloc::AllocError;

/// Why the parser stops: what is wrong with the first of the tokens that are left then, or no memory.
#[derive(Clone, Copy)]
pub(crate) enum Halt {
    Grammar(ParseWhy),
    Memory,
}

impl From<AllocError> for Halt {
    ghost from_gives = { λ _ e. e ≡ no_memory };

    fn from(_: AllocError) -> Self {
        Halt::Memory
    }
}

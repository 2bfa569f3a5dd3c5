ghost use Rattle.std.specs.Prelude.{◌≡◌};
ghost use Rattle.idl_check.specs.declared.check_fault.CheckFault.TheVariants.{Memory as no_memory};

use idl_rules::CheckWhy;
use std::alloc::AllocError;

/// Why interface files are refused.
#[derive(Clone, Copy)]
pub enum CheckFault {
    /// The file by its place in the list, the byte of its text, and the rule.
    Bad { file: u32, at: u32, why: CheckWhy },
    Memory,
}

impl From<AllocError> for CheckFault {
    ghost from_gives = { λ _ e. e ≡ no_memory };

    fn from(_: AllocError) -> Self {
        CheckFault::Memory
    }
}

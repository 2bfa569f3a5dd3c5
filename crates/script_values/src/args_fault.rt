ghost use Rattle.std.specs.Prelude.{◌≡◌};
ghost use Rattle.script_values.specs.Outcomes.{OnMemory};
ghost use Rattle.script_values.specs.declared.args_fault.ArgsFault.TheVariants.{Memory as no_memory};

use std::alloc::AllocError;
use value_text::ValueFault;

/// Why a text gives no arguments.
#[derive(Clone, Copy)]
pub enum ArgsFault {
    /// It says no values of the members: one does not read or fit, or there are too few or too many.
    Bad,
    Memory,
}

impl From<AllocError> for ArgsFault {
    ghost from_gives = { λ _ e. e ≡ no_memory };

    fn from(_: AllocError) -> Self {
        ArgsFault::Memory
    }
}

impl From<ValueFault> for ArgsFault {
    ghost from_gives = { λ fault e. OnMemory fault e };

    fn from(fault: ValueFault) -> Self {
        match fault {
            ValueFault::Bad { .. } => ArgsFault::Bad,
            ValueFault::Memory => ArgsFault::Memory,
        }
    }
}

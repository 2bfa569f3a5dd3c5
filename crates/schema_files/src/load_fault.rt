ghost use Rattle.std.specs.Prelude.{◌≡◌};
ghost use Rattle.schema_files.specs.LoadSteps.{fault_of};
ghost use Rattle.schema_files.specs.declared.load_fault.LoadFault.TheVariants.{Memory as no_memory};

use std::alloc::AllocError;
use tars_base::ReadFault;
use tars_model::Bytes8;

/// Why a script or an interface file was not loaded.
#[derive(Drop)]
pub enum LoadFault {
    /// A text that was read whole is refused, by this line.
    Refused { line: Bytes8 },
    /// A file could not be read.
    Read,
    Memory,
}

impl From<AllocError> for LoadFault {
    ghost from_gives = { λ _ e. e ≡ no_memory };

    fn from(_: AllocError) -> Self {
        LoadFault::Memory
    }
}

impl From<ReadFault> for LoadFault {
    ghost from_gives = { λ fault e. e ≡ fault_of fault };

    fn from(fault: ReadFault) -> Self {
        match fault {
            ReadFault::Failed => LoadFault::Read,
            ReadFault::Memory => LoadFault::Memory,
        }
    }
}

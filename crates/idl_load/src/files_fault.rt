ghost use Rattle.std.specs.Prelude.{◌≡◌};
ghost use Rattle.idl_load.specs.LoadSteps.{fault_of};
ghost use Rattle.idl_load.specs.declared.files_fault.FilesFault.TheVariants.{Memory as no_memory};

use crate::file_fault::FileFault;
use std::alloc::AllocError;
use tars_base::ReadFault;
use tars_model::Name;

/// Why the files of an interface are not loaded.
#[derive(Drop)]
pub enum FilesFault {
    /// The file of this name was read and is refused.
    Refused { file: Name, fault: FileFault },
    /// A file could not be read.
    Read,
    Memory,
}

impl From<AllocError> for FilesFault {
    ghost from_gives = { λ _ e. e ≡ no_memory };

    fn from(_: AllocError) -> Self {
        FilesFault::Memory
    }
}

impl From<ReadFault> for FilesFault {
    ghost from_gives = { λ fault e. e ≡ fault_of fault };

    fn from(fault: ReadFault) -> Self {
        match fault {
            ReadFault::Failed => FilesFault::Read,
            ReadFault::Memory => FilesFault::Memory,
        }
    }
}

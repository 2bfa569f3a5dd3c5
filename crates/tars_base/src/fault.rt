ghost use Rattle.tars_base.specs.declared.fault.ReadFault.TheVariants.{Memory as no_memory};
ghost use Rattle.std.specs.Prelude.{◌≡◌};

/// Memory ran out.
pub use std::alloc::AllocError as Memory;
use std::alloc::AllocFailed;

/// A call on the outside failed. Its object has counted a fault.
#[derive(Clone, Copy, Debug, PartialEq, Eq)]
pub struct Failed;

/// Why a file was not read.
#[derive(Clone, Copy, Debug, PartialEq, Eq)]
pub enum ReadFault {
    /// The read failed, or there is no such file. The object has counted a fault.
    Failed,
    /// Memory ran out.
    Memory,
}

impl From<Memory> for ReadFault {
    ghost from_gives = { λ _ e. e ≡ no_memory };

    fn from(_: Memory) -> Self {
        ReadFault::Memory
    }
}

impl<T: Drop> From<AllocFailed<T>> for ReadFault {
    ghost from_gives = { λ _ e. e ≡ no_memory };

    fn from(_: AllocFailed<T>) -> Self {
        ReadFault::Memory
    }
}

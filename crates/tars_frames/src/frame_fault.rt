ghost use Rattle.std.specs.Prelude.{◌≡◌};
ghost use Rattle.tars_frames.specs.declared.frame_fault.FrameFault.TheVariants.{Memory as no_memory};

use std::alloc::{AllocError, AllocFailed};

/// Why a piece was not taken.
#[derive(Clone, Copy)]
pub enum FrameFault {
    /// At this place of the stream a packet would begin with a length that no packet has. A place past 2^64 - 1 is
    /// given as that number.
    BadLength { at: u64, length: u32 },
    /// Nothing changed.
    Memory,
}

impl From<AllocError> for FrameFault {
    ghost from_gives = { λ _ e. e ≡ no_memory };

    fn from(_: AllocError) -> Self {
        FrameFault::Memory
    }
}

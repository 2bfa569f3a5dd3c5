ghost use Rattle.std.specs.Prelude.{◌≡◌};
ghost use Rattle.rpc_packet.specs.declared.write_refusal.WriteRefusal.TheVariants.{Memory as no_memory};

use std::alloc::AllocError;

/// Why a frame was not written.
#[derive(Clone, Copy)]
pub enum WriteRefusal {
    /// It would be longer than a packet may be. A length past 2^64 - 1 is given as that number.
    TooLong { length: u64 },
    Memory,
}

impl From<AllocError> for WriteRefusal {
    ghost from_gives = { λ _ e. e ≡ no_memory };

    fn from(_: AllocError) -> Self {
        WriteRefusal::Memory
    }
}

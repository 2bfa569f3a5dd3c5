ghost use Rattle.std.specs.Prelude.{◌≡◌, IfOk};
ghost use Rattle.tars_frames.specs.Streams.{IsPacket, LONGEST};

use std::alloc::{AllocError, Global};
use std::marker::Model;

/// A whole packet, its length bytes included.
#[derive(Drop)]
pub struct Packet {
    bytes: Vec<u8>,
}

impl Model for Packet {
    ghost use Rattle.std.specs.Prelude.{List, ℕ};
    ghost use Rattle.tars_frames.specs.Streams.{IsPacket, LONGEST};

    ghost Value = { List ℕ };

    ghost view = { λ p. p.bytes.items };

    ghost invariant = { λ p. IsPacket LONGEST p.bytes.items };
}

impl Packet {
    pub(crate) fn from_slice(alloc: Global, bytes: &[u8]) -> Result<Packet, AllocError>
        requires { IsPacket LONGEST bytes.now }
        ensures { IfOk result (λ packet. packet ≡ bytes.now) }
    {
        let bytes = Vec::from_slice(alloc, bytes)?;
        Ok(Packet { bytes })
    }

    pub fn bytes(&self) -> &[u8]
        ensures value { result.now ≡ self.now }
        ensures whole { IsPacket LONGEST self.now }
    {
        self.bytes.as_slice()
    }

    /// The bytes, which are not copied.
    pub fn into_vec(self) -> Vec<u8>
        ensures value { result.items ≡ self }
        ensures whole { IsPacket LONGEST self }
    {
        let Packet { bytes } = self;
        bytes
    }
}

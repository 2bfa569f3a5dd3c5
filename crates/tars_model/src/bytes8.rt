ghost use Rattle.std.specs.Prelude.{◌≡◌, IfOk};

use std::alloc::{AllocError, Global};
use std::marker::Model;
use std::ops::DerefSlice;

/// A string of bytes, which need not be text.
#[derive(Drop)]
pub struct Bytes8 {
    bytes: Vec<u8>,
}

impl Model for Bytes8 {
    ghost use Rattle.std.specs.Prelude.{List, ℕ};

    ghost Value = { List ℕ };

    ghost view = { λ b. b.bytes.items };
}

impl Bytes8 {
    pub fn from_vec(bytes: Vec<u8>) -> Bytes8
        ensures { result ≡ bytes.items }
    {
        Bytes8 { bytes }
    }

    pub fn from_slice(alloc: Global, bytes: &[u8]) -> Result<Bytes8, AllocError>
        ensures { IfOk result (λ b. b ≡ bytes.now) }
    {
        let bytes = Vec::from_slice(alloc, bytes)?;
        Ok(Bytes8 { bytes })
    }

    pub fn as_slice(&self) -> &[u8]
        ensures { result.now ≡ self.now }
    {
        self.bytes.as_slice()
    }

    pub fn into_vec(self) -> Vec<u8>
        ensures { result.items ≡ self }
    {
        let Bytes8 { bytes } = self;
        bytes
    }
}

impl DerefSlice for Bytes8 {
    type Elem = u8;

    ghost deref_gives = { λ b bytes. bytes ≡ b };

    fn deref(&self) -> &[u8] {
        &self.bytes
    }
}

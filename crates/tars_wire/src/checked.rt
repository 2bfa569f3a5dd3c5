ghost use Rattle.std.specs.Prelude.{◌≡◌, ℕ, List, [], ◌∷◌};
ghost use Rattle.wire_words.specs.Tree.{WireFields};
ghost use Rattle.tars_wire.specs.Heads.{MAX_DEPTH};
ghost use Rattle.tars_wire.specs.Spelled.{IsBody, Spelled};
ghost use Rattle.tars_wire.specs.Left.{fields_left, IsLeft};

use crate::cursor::Cursor;
use std::marker::Model;

/// Bytes that are a body.
#[derive(Drop)]
pub struct Checked<'a> {
    bytes: &'a [u8],
}

impl<'a> Model for Checked<'a> {
    ghost Value = { List ℕ };

    ghost view = { λ c. c.bytes.now };

    ghost invariant = { λ c. IsBody c.bytes.now };
}

impl<'a> Checked<'a> {
    pub(crate) fn new(bytes: &'a [u8]) -> Checked<'a>
        requires { IsBody bytes.now }
        ensures { result ≡ bytes.now }
    {
        Checked { bytes }
    }

    /// The bytes.
    pub fn bytes(&self) -> &'a [u8]
        ensures same { result.now ≡ self.now }
        ensures body { IsBody self.now }
    {
        self.bytes
    }

    /// A walk over its fields.
    pub fn cursor(&self) -> Cursor<'a>
        ensures left { (fields : WireFields) → Spelled MAX_DEPTH self.now fields → IsLeft result (fields_left fields ∷ []) }
        ensures some { (fields : WireFields) × Spelled MAX_DEPTH self.now fields }
    {
        Cursor::over(self.bytes)
    }
}

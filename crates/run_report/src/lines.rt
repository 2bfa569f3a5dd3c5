ghost use Rattle.std.specs.Prelude.{◌≡◌, [], IfOk};

use std::alloc::{AllocError, Global};
use std::marker::Model;
use text_buffer::TextBuffer;

/// The lines of a report so far.
#[derive(Drop)]
pub struct Lines {
    pub text: TextBuffer,
}

impl Model for Lines {
    ghost use Rattle.std.specs.Prelude.{List, ℕ};

    ghost Value = { List ℕ };

    ghost view = { λ lines. lines.text };
}

impl Lines {
    /// With room for so many bytes.
    pub fn with_capacity(alloc: Global, bytes: usize) -> Result<Lines, AllocError>
        ensures { IfOk result (λ lines. lines ≡ []) }
    {
        Ok(Lines {
            text: TextBuffer::with_capacity(alloc, bytes)?,
        })
    }

    pub fn into_text(self) -> Vec<u8>
        ensures { result.items ≡ self }
    {
        let Lines { text } = self;
        text.into_bytes()
    }
}

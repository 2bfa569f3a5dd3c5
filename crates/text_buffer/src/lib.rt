//! Text that grows at its end: bytes, words, what `{}` prints, and hexadecimal digits. What is printed goes straight into
//! the text.
#![tactic(auto)]

ghost use Rattle.std.specs.Prelude.{◌≡◌, [], ◌∷◌, ◌++◌, OnOk, IfOk};
ghost use Rattle.std.specs.Fmt.{AppendsText};
ghost use Rattle.std.specs.List.{flat_map};
ghost use Rattle.hex.specs.Hex.{encode_upper};

use std::alloc::{AllocError, Global};
use std::fmt;
use std::fmt::{Display, Write};
use std::marker::Model;

/// The hexadecimal digits, in order.
const DIGITS: &[u8; 16] = b"0123456789ABCDEF";

/// The text so far.
#[derive(Drop)]
pub struct TextBuffer {
    text: Vec<u8>,
}

impl Model for TextBuffer {
    ghost use Rattle.std.specs.Prelude.{List, ℕ};

    ghost Value = { List ℕ };

    ghost view = { λ buffer. buffer.text.items };
}

impl TextBuffer {
    pub fn new(alloc: Global) -> TextBuffer
        ensures { result ≡ [] }
    {
        TextBuffer {
            text: Vec::new(alloc),
        }
    }

    /// With room for so many bytes, and no text.
    pub fn with_capacity(alloc: Global, bytes: usize) -> Result<TextBuffer, AllocError>
        ensures { IfOk result (λ buffer. buffer ≡ []) }
    {
        Ok(TextBuffer {
            text: Vec::with_capacity(alloc, bytes)?,
        })
    }

    pub fn into_bytes(self) -> Vec<u8>
        ensures { result.items ≡ self }
    {
        let TextBuffer { text } = self;
        text
    }

    /// Adds bytes as they are.
    pub fn put(&mut self, bytes: &[u8]) -> Result<(), AllocError>
        ensures { OnOk result (self.new ≡ self.old ++ bytes.now) }
    {
        self.text.extend_from_slice(bytes)
    }

    /// Adds a word as it is.
    pub fn word(&mut self, word: &str) -> Result<(), AllocError>
        ensures { OnOk result (self.new ≡ self.old ++ word.now) }
    {
        self.text.extend_from_slice(word.as_bytes())
    }

    /// Adds what `{}` prints. A value that cannot be printed is told as want of memory.
    pub fn show<D: Display + Drop>(&mut self, value: D) -> Result<(), AllocError>
        ensures { OnOk result (AppendsText self.old self.new (D.output value)) }
    {
        match self.write(value) {
            Ok(()) => Ok(()),
            Err(_) => Err(AllocError),
        }
    }

    /// Adds the two hexadecimal digits of a byte, as capitals.
    fn put_hex_byte(&mut self, byte: u8) -> Result<(), AllocError>
        ensures { OnOk result (self.new ≡ self.old ++ encode_upper (byte ∷ [])) }
    {
        let high = DIGITS[(byte >> 4) as usize];
        let low = DIGITS[(byte & 0x0F) as usize];
        self.text.extend_from_slice(&[high, low])
    }

    fn put_hex_bytes(&mut self, bytes: &[u8]) -> Result<(), AllocError>
        ensures { OnOk result (self.new ≡ self.old ++ flat_map (λ byte. encode_upper (byte ∷ [])) bytes.now) }
    {
        for byte in bytes {
            self.put_hex_byte(*byte)?;
        }
        Ok(())
    }

    /// Adds the hexadecimal digits of bytes, as capitals.
    #[tactic(auto, using(crate::proofs::Digits::digits_of_each))]
    pub fn put_hex(&mut self, bytes: &[u8]) -> Result<(), AllocError>
        ensures { OnOk result (self.new ≡ self.old ++ encode_upper bytes.now) }
    {
        self.text.reserve(bytes.len().saturating_mul(2))?;
        self.put_hex_bytes(bytes)
    }
}

impl fmt::Write for TextBuffer {
    ghost write_str_gives = { λ before bytes after. after ≡ before ++ bytes };

    fn write_str(&mut self, text: &str) -> fmt::Result {
        Ok(self.word(text)?)
    }
}

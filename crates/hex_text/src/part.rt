//! What a byte of a text gives, by what stands before it.

ghost use Rattle.std.specs.Prelude.{◌≡◌, ◌<◌, IfSome, OnOk};
ghost use Rattle.hex_text.specs.HexSteps.{part_of, waits, spelt_by, IsSmall};

use std::alloc::AllocError;

/// What a byte is in a hexadecimal text.
#[derive(Clone, Copy)]
pub(crate) enum Part {
    /// A space or a line feed outside a pair.
    Blank,
    /// The first digit of a pair.
    High(u8),
    /// The second digit, which makes this byte.
    Byte(u8),
}

impl Part {
    /// Adds the byte that ends with this part, if one does.
    pub(crate) fn add_to(self, bytes: &mut Vec<u8>) -> Result<(), AllocError>
        ensures { OnOk result (bytes.new.items ≡ spelt_by bytes.old.items self) }
    {
        if let Part::Byte(byte) = self {
            bytes.push(byte)?;
        }
        Ok(())
    }

    /// The digit that waits for its second then.
    pub(crate) fn waits(self) -> Option<u8>
        ensures { result ≡ waits self }
    {
        match self {
            Part::High(digit) => Some(digit),
            Part::Blank | Part::Byte(_) => None,
        }
    }
}

/// What the next byte of a text is, where `high` is the first digit of a pair before it.
#[tactic(auto, unfolding(crate::specs::HexSteps::part_of))]
pub(crate) fn part_of(high: Option<u8>, byte: u8) -> Option<Part>
    requires { IfSome high (λ digit. digit < 16) }
    ensures part { result ≡ part_of high byte }
    ensures small { IsSmall result }
{
    match (high, char::from(byte).to_digit(16)) {
        (None, Some(digit)) => Some(Part::High(digit as u8)),
        (Some(high), Some(low)) => Some(Part::Byte(16 * high + low as u8)),
        (None, None) if byte == b' ' || byte == b'\n' => Some(Part::Blank),
        _ => None,
    }
}

ghost use Rattle.std.specs.Prelude.{◌<◌, ◌^◌, ℕ, List, length};
ghost use Rattle.hex_text.specs.Answers.{IsJudged, GivesBytes, GivesFault};
ghost use Rattle.hex_text.specs.HexText.{HexSpells, IsHexFault};

use crate::hex_fault::HexFault;
use crate::part::part_of;
use std::alloc::Global;

/// The bytes that a text of fewer than 2^32 bytes spells.
pub fn read_hex(alloc: Global, text: &[u8]) -> Result<Vec<u8>, HexFault>
    requires { length text.now < 2 ^ 32 }
    // The text spells the bytes, or has the fault.
    ensures judged { IsJudged text.now result }
    // Unless memory runs out, whatever bytes a text spells are returned, and whatever fault it has.
    ensures bytes { (bytes : List ℕ) → HexSpells bytes text.now → GivesBytes result bytes }
    ensures fault { (at : ℕ) → IsHexFault text.now at → GivesFault result at }
{
    let mut bytes = Vec::with_capacity(alloc, text.len() / 2)?;
    let mut high = None;
    for (at, byte) in text.iter().enumerate() {
        let Some(part) = part_of(high, *byte) else {
            return Err(HexFault::Bad { at: at as u32 });
        };
        part.add_to(&mut bytes)?;
        high = part.waits();
    }
    match high {
        None => Ok(bytes),
        Some(_) => Err(HexFault::Bad {
            at: text.len() as u32,
        }),
    }
}

//! Bytes from hexadecimal text. `read_hex` gives the bytes that a text spells, in one pass and with room taken for all of
//! them at once, or the place of its fault. Such text is written by `hex::encode_upper`. Read `specs/HexText.antt` first,
//! beside docs/SCRIPTS.md ("Hexadecimal text"); `specs/HexSteps.antt` follows the code's steps and is for the proofs.
#![tactic(auto)]

mod hex_fault;
mod laws;
mod part;
mod reading;

pub use hex_fault::HexFault;
pub use laws::one_outcome;
pub use reading::read_hex;

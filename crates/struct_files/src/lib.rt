//! Structs from files. `encode_text` reads the values of one as text and gives the body that spells them, in hexadecimal;
//! `decode_text` reads a body in hexadecimal and gives its values as text; `compat_text` tells whether a new version of it
//! agrees with an old one. The struct is one that an interface file declares, with those that it includes. Where files come
//! from is left to the caller, through the trait `Files`.
//!
//! Read `specs/Finding.antt` and `specs/Opening.antt` first, then `specs/Encoding.antt`, `specs/Decoding.antt` and
//! `specs/Comparing.antt`, beside docs/SCRIPTS.md ("Values of a struct", "Two versions"). The module `Steps` follows the code's steps and is
//! for the proofs.
#![tactic(auto)]

mod comparing;
mod decoding;
mod encoding;
mod finding;
mod laws;
mod opening;

pub use comparing::compat_text;
pub use decoding::decode_text;
pub use encoding::encode_text;
pub use laws::{one_comparison, one_decoding, one_encoding};

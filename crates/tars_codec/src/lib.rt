//! Values as fields on the wire, and back. `encode` writes the one spelling of values of any type that
//! `specs/Written.antt` states; the tags of a struct are those of the schema. `decode` reads values of any types from
//! any bytes, as `tars_decode` does, and gives what was written. Read `specs/Written.antt` first, beside
//! docs/PROTOCOL.md ("Writing").
#![tactic(auto)]

mod head;
mod lengths;
mod put;
mod reading;
mod writing;

pub use lengths::encoded_len;
pub use reading::decode;
pub use tars_decode::{Misfit, Refuse};
pub use writing::encode;

//! How long values are on the wire that a text says (docs/SCRIPTS.md, "Value text"): at most six bytes for each byte of the text. The
//! function of this crate does nothing: it is its contract.
//!
//! Read `specs/SaidCalls.antt` first.
#![tactic(auto)]

mod laws;

pub use laws::calls_are_packets;

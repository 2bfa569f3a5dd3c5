//! The packets of requests and responses (docs/PROTOCOL.md, "Packets"): what stands in a frame of `tars_frames` after its length.
//!
//! Read `specs/Packets.antt` first, which says what is written for a request or a response and what is read of bytes, then
//! `specs/Bodies.antt`, which says what values bytes have under members, and `specs/Outcomes.antt`. A `Frame` is a request whose id
//! and timeout come last (`specs/Prepared.antt`).
#![tactic(auto)]

mod filling;
mod frame;
mod members;
mod packets;
mod parts;
mod reading;
mod request;
mod response;
mod short_number;
mod text_pair;
mod texts;
mod write_refusal;
mod writing;

pub use frame::Frame;
pub use packets::Packets;
pub use request::Request;
pub use response::Response;
pub use text_pair::TextPair;
pub use write_refusal::WriteRefusal;

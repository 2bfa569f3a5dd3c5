//! Packets from a stream of bytes that comes in pieces of any size. `feed` takes a piece, `next` gives the next whole packet,
//! and `rest` is what was fed after the packets that were given. Read `specs/Streams.antt` first, beside docs/PROTOCOL.md
//! ("Packets"): what the packets of a stream are, and where its first bad length stands.
//!
//! A byte is copied once into the buffer and once into its packet, which owns its bytes; `next` needs no memory. Bytes that were
//! given go as soon as they are no fewer than those that wait, so that all moves together are no more bytes than were given, and
//! the buffer has at most twice the bytes that wait, whatever a length promises. No clause says this.
#![tactic(auto)]

mod cutting;
mod frame_fault;
mod frames;
mod laws;
mod packet;

pub use frame_fault::FrameFault;
pub use frames::Frames;
pub use laws::{framed_is_packet, limits, one_bad_length, one_reading};
pub use packet::Packet;

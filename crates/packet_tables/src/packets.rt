//! The packets of rows.

ghost use Rattle.std.specs.Prelude.{◌≤◌, length, IfOk, IfSome};
ghost use Rattle.tars_frames.specs.Streams.{IsPacket, LONGEST};

use row_pages::Page;
use std::alloc::{AllocError, Global};
use tars_frames::{FrameFault, Frames, Packet};

/// The packet at the start of bytes, if there is one.
pub fn first_packet(alloc: Global, bytes: &[u8]) -> Result<Option<Packet>, AllocError> {
    let mut frames = Frames::new(alloc)?;
    match frames.feed(alloc, bytes) {
        Ok(()) => Ok(frames.next()),
        Err(FrameFault::BadLength { .. }) => Ok(None),
        Err(FrameFault::Memory) => Err(AllocError),
    }
}

/// The packet of these digits. Where there is none, that is added.
pub fn packet_of(page: &mut Page, digits: &str) -> Result<Option<Packet>, AllocError> {
    let Ok(bytes) = hex::decode(page.alloc(), digits.as_bytes()) else {
        page.add("no bytes");
        return Ok(None);
    };
    let packet = first_packet(page.alloc(), &bytes)?;
    if packet.is_none() {
        page.add("no packet");
    }
    Ok(packet)
}

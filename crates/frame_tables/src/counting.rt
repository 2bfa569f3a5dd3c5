//! The packets of a file, counted.

use std::alloc::Global;
use tars_frames::{FrameFault, Frames};

/// Takes the packets that wait, and gives how many there were.
fn take_packets(frames: &mut Frames) -> u64 {
    let mut packets = 0_u64;
    while let Some(_packet) = frames.next() {
        packets = packets.saturating_add(1);
    }
    packets
}

/// How many packets get whole by some bytes that are fed in pieces of one length.
fn feed_all(
    alloc: Global,
    frames: &mut Frames,
    bytes: &[u8],
    length: usize,
) -> Result<u64, FrameFault> {
    let mut packets = 0_u64;
    for piece in bytes.chunks(length.max(1)) {
        frames.feed(alloc, piece)?;
        packets = packets.saturating_add(take_packets(frames));
    }
    Ok(packets)
}

/// How many packets a stream has that is some bytes so many times.
pub fn count_packets(
    alloc: Global,
    bytes: &[u8],
    length: usize,
    times: u32,
) -> Result<u64, FrameFault> {
    let mut frames = Frames::new(alloc)?;
    let mut packets = 0_u64;
    for _ in 0..times {
        packets = packets.saturating_add(feed_all(alloc, &mut frames, bytes, length)?);
    }
    Ok(packets)
}

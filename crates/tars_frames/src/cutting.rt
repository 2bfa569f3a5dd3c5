//! The whole packets at the start of some bytes.

ghost use Rattle.std.specs.Prelude.{◌≡◌, ◌++◌, ◌≤◌, ◌<◌, length, IfOk, MatchOption, MatchResult};
ghost use Rattle.tars_frames.specs.Streams.{IsPacket, HasNoPacket, LENGTH_BYTES, LONGEST, first_length};
ghost use Rattle.tars_frames.specs.Cutting.{is_length};
ghost use Rattle.tars_frames.specs.Waiting.{IsCutOff, IsAdded};

use crate::packet::Packet;
use std::alloc::{AllocError, Global};
use std::collections::VecDeque;

/// The shortest packet: a length and one byte.
const MIN_PACKET: u32 = 5;

/// The longest packet.
const MAX_PACKET: u32 = 10_485_760;

/// What the first four bytes say, if they are there.
#[tactic(auto, unfolding(crate::specs::Streams::first_length))]
pub(crate) fn said_length(bytes: &[u8]) -> Option<u32>
    ensures { MatchOption result (length bytes.now < LENGTH_BYTES) (λ number. (LENGTH_BYTES ≤ length bytes.now) × (number ≡ first_length bytes.now)) }
{
    let [a, b, c, d, ..] = bytes else {
        return None;
    };
    Some(u32::from_be_bytes([*a, *b, *c, *d]))
}

/// Whether a packet may have this length.
#[tactic(auto, unfolding(crate::specs::Cutting::is_length))]
pub(crate) fn is_length(number: u32) -> bool
    ensures { result ≡ is_length LONGEST number }
{
    MIN_PACKET <= number && number <= MAX_PACKET
}

/// The packet at the start, and what stands after it.
fn first_packet(bytes: &[u8]) -> Option<(&[u8], &[u8])>
    ensures { MatchOption result (HasNoPacket LONGEST bytes.now)
        (λ parts. IsPacket LONGEST parts.0.now × (bytes.now ≡ parts.0.now ++ parts.1.now)) }
{
    let length = said_length(bytes)?;
    if !is_length(length) || bytes.len() < length as usize {
        return None;
    }
    Some(bytes.split_at(length as usize))
}

/// The packets of these bytes, and how many bytes are left after them.
fn cut(alloc: Global, bytes: &[u8]) -> Result<(VecDeque<Packet>, usize), AllocError>
    ensures { IfOk result (λ parts. IsCutOff bytes.now parts.0.items parts.1) }
{
    let mut packets = VecDeque::new(alloc);
    let mut rest = bytes;
    while let Some((packet, after)) = first_packet(rest) {
        packets.push_back(Packet::from_slice(alloc, packet)?)?;
        rest = after;
    }
    Ok((packets, rest.len()))
}

/// Adds the packets of these bytes to those that wait, and gives how many bytes are left after them.
pub(crate) fn add_packets(
    alloc: Global,
    bytes: &[u8],
    waiting: &mut VecDeque<Packet>,
) -> Result<usize, AllocError>
    ensures { MatchResult result (λ left. IsAdded bytes.now waiting.old.items waiting.new.items left)
        (λ _. waiting.new.items ≡ waiting.old.items) }
{
    let (mut packets, left) = cut(alloc, bytes)?;
    waiting.append(&mut packets)?;
    Ok(left)
}

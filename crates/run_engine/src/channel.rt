//! One direction of a link.

ghost use Rattle.std.specs.Prelude.{◌≡◌, ◌++◌, ◌≤◌, false, ℕ, List, [], length, min, take, IfOk, OnOk};
ghost use Rattle.tars_frames.specs.Cutting.{is_refused, packets_of, rest_of};
ghost use Rattle.tars_frames.specs.Feeding.{IsAt};
ghost use Rattle.tars_frames.specs.Streams.{LONGEST};
ghost use Rattle.run_course.specs.Courses.{count_of, read_to, news};
ghost use Rattle.run_engine.specs.Tracks.{Reads};

use bytes::BytesMut;
use std::alloc::{AllocError, Global};
use tars_frames::{FrameFault, Frames, Packet};

/// What was written in one direction of a link, and how far it was read.
#[derive(Drop)]
pub(crate) struct Channel {
    /// What was written and not read.
    waiting: BytesMut,
    /// What was read after the last whole packet.
    frames: Frames,
    /// Whether a bad length was read, after which nothing is read.
    refused: bool,
}

/// Takes a piece, and tells whether a bad length follows the packets then.
fn feed(alloc: Global, frames: &mut Frames, piece: &[u8]) -> Result<bool, AllocError>
    ensures kept { (stream : List ℕ) (given : List (List ℕ)) → IsAt LONGEST stream given frames.old → is_refused LONGEST stream ≡ false
        → OnOk result (IsAt LONGEST (stream ++ piece.now) given frames.new) }
    ensures refused { (stream : List ℕ) (given : List (List ℕ)) → IsAt LONGEST stream given frames.old → is_refused LONGEST stream ≡ false
        → IfOk result (λ refused. refused ≡ is_refused LONGEST (stream ++ piece.now)) }
{
    match frames.feed(alloc, piece) {
        Ok(()) => Ok(false),
        Err(FrameFault::BadLength { .. }) => Ok(true),
        Err(FrameFault::Memory) => Err(AllocError),
    }
}

/// The whole packets that wait.
fn take_all(alloc: Global, frames: &mut Frames) -> Result<Vec<Packet>, AllocError>
    ensures packets { (stream : List ℕ) (given : List (List ℕ)) → IsAt LONGEST stream given frames.old
        → IfOk result (λ packets. packets_of LONGEST stream ≡ given ++ packets.items) }
    ensures kept { (stream : List ℕ) (given : List (List ℕ)) → IsAt LONGEST stream given frames.old
        → OnOk result (IsAt LONGEST stream (packets_of LONGEST stream) frames.new) }
{
    let mut packets = Vec::new(alloc);
    while let Some(packet) = frames.next() {
        packets.push(packet)?;
    }
    Ok(packets)
}

impl Channel {
    /// Nothing was written.
    pub fn new(alloc: Global) -> Result<Channel, AllocError>
        ensures { IfOk result (λ channel. Reads channel [] 0) }
    {
        Ok(Channel {
            waiting: BytesMut::new(alloc),
            frames: Frames::new(alloc)?,
            refused: false,
        })
    }

    pub fn write(&mut self, bytes: &[u8]) -> Result<(), AllocError>
        ensures { (stream : List ℕ) (at : ℕ) → Reads self.old stream at → OnOk result (Reads self.new (stream ++ bytes.now) at) }
    {
        self.waiting.extend_from_slice(bytes)
    }

    /// How many bytes a read takes of those that wait.
    fn count(&self, bytes: Option<u32>) -> usize
        ensures count { result ≡ count_of bytes (length self.now.waiting.items) }
        ensures within { result ≤ length self.now.waiting.items }
    {
        let waiting = self.waiting.len();
        match bytes {
            Some(most) => waiting.min(most as usize),
            None => waiting,
        }
    }

    /// Reads so many of the bytes that wait, or all of them: the packets that get whole by it.
    pub fn read(&mut self, alloc: Global, bytes: Option<u32>) -> Result<Vec<Packet>, AllocError>
        ensures packets { (stream : List ℕ) (at : ℕ) → Reads self.old stream at
            → IfOk result (λ packets. packets.items ≡ news at (read_to at bytes stream) stream) }
        ensures kept { (stream : List ℕ) (at : ℕ) → Reads self.old stream at
            → OnOk result (Reads self.new stream (read_to at bytes stream)) }
    {
        if self.refused {
            return Ok(Vec::new(alloc));
        }
        let count = self.count(bytes);
        let (piece, _) = self.waiting.as_slice().split_at(count);
        self.refused = feed(alloc, &mut self.frames, piece)?;
        self.waiting.advance(count);
        take_all(alloc, &mut self.frames)
    }

    /// What was read after the last whole packet.
    pub fn rest(&self) -> &[u8]
        ensures { (stream : List ℕ) (at : ℕ) → Reads self.now stream at → result.now ≡ rest_of LONGEST (take at stream) }
    {
        self.frames.rest()
    }
}

ghost use Rattle.std.specs.Prelude.{◌≡◌, false, ℕ, List, [], ◌++◌, length, IfOk, IfSome, IsOk, MatchResult, slice_get};
ghost use Rattle.std.specs.Option.{option_to_list};
ghost use Rattle.tars_frames.specs.Streams.{IsPacket, LONGEST, joined};
ghost use Rattle.tars_frames.specs.Cutting.{is_refused, packets_of};
ghost use Rattle.tars_frames.specs.Feeding.{IsAt, Tells, OnMemory, UnlessMemory, fed};
ghost use Rattle.tars_frames.specs.Waiting.{Judges, Steps, TakesOne};

use crate::cutting::{add_packets, is_length, said_length};
use crate::frame_fault::FrameFault;
use crate::packet::Packet;
use std::alloc::{AllocError, Global};
use std::collections::VecDeque;
use std::marker::Model;

/// The packets of a stream that comes in pieces.
#[derive(Drop)]
pub struct Frames {
    /// Bytes that were given, and then those that wait.
    bytes: Vec<u8>,
    /// Where the waiting bytes begin.
    start: usize,
    /// Where the whole packets end.
    end: usize,
    /// The whole packets that wait.
    packets: VecDeque<Packet>,
    /// The place of the waiting bytes in the stream.
    place: u64,
}

impl Model for Frames {
    ghost use Rattle.std.specs.Prelude.{drop};
    ghost use Rattle.tars_frames.specs.Feeding.{Kept};
    ghost use Rattle.tars_frames.specs.Waiting.{IsCut};

    ghost Value = { Kept };

    ghost view = { λ f. record { rest = drop f.start f.bytes.items; place = f.place } };

    ghost invariant = { λ f. IsCut f.bytes.items f.start f.end f.packets.items };
}

impl Frames {
    /// Takes no memory.
    pub fn new(alloc: Global) -> Result<Frames, AllocError>
        ensures made { IfOk result (λ frames. IsAt LONGEST [] [] frames) }
        ensures succeeds { IsOk result }
    {
        Ok(Frames {
            bytes: Vec::new(alloc),
            start: 0,
            end: 0,
            packets: VecDeque::new(alloc),
            place: 0,
        })
    }

    /// Takes a piece of the stream, and the packets that get whole by it. After a bad length these can be taken, and what
    /// was fed up to it is in `rest`; where memory runs out nothing changed.
    pub fn feed(&mut self, alloc: Global, piece: &[u8]) -> Result<(), FrameFault>
        // What is fed stays, up to the first piece that is refused.
        ensures kept { (stream : List ℕ) (given : List (List ℕ)) → IsAt LONGEST stream given self.old
            → UnlessMemory result (IsAt LONGEST (fed LONGEST stream piece.now) given self.new) }
        // The bad length is told as soon as its four bytes are there, and by each later call.
        ensures told { (stream : List ℕ) (given : List (List ℕ)) → IsAt LONGEST stream given self.old
            → Tells LONGEST (fed LONGEST stream piece.now) result }
        ensures memory { OnMemory result (self.new ≡ self.old) }
        ensures again { OnMemory result (is_refused LONGEST self.old.rest ≡ false) }
    {
        self.step(alloc, piece)
    }

    /// The next whole packet. Takes no memory.
    pub fn next(&mut self) -> Option<Packet>
        // The packets of the stream come in order, as soon as they are whole.
        ensures packet { (stream : List ℕ) (given : List (List ℕ)) → IsAt LONGEST stream given self.old
            → result ≡ slice_get (packets_of LONGEST stream) (length given) }
        ensures kept { (stream : List ℕ) (given : List (List ℕ)) → IsAt LONGEST stream given self.old
            → IsAt LONGEST stream (given ++ option_to_list result) self.new }
        ensures taken { IfSome result (λ packet. IsPacket LONGEST packet × (self.old.rest ≡ packet ++ self.new.rest)) }
    {
        self.take_one()
    }

    /// What was fed after the packets that were given.
    pub fn rest(&self) -> &[u8]
        ensures value { result.now ≡ self.now.rest }
        ensures left { (stream : List ℕ) (given : List (List ℕ)) → IsAt LONGEST stream given self.now
            → stream ≡ joined given ++ result.now }
    {
        &self.bytes[self.start..]
    }

    /// Takes a piece, by what waits.
    fn step(&mut self, alloc: Global, piece: &[u8]) -> Result<(), FrameFault>
        ensures { Steps LONGEST piece.now self.old self.new result }
    {
        self.judge()?;
        self.take_in(alloc, piece)?;
        self.judge()
    }

    /// Tells of the bad length after the whole packets, if there is one.
    fn judge(&self) -> Result<(), FrameFault>
        ensures { Judges LONGEST self.now result }
    {
        let (_, unread) = self.bytes.split_at(self.end);
        let Some(length) = said_length(unread) else {
            return Ok(());
        };
        if is_length(length) {
            return Ok(());
        }
        let before = (self.end - self.start) as u64;
        Err(FrameFault::BadLength {
            at: self.place.saturating_add(before),
            length,
        })
    }

    /// Adds a piece, and the packets that get whole by it.
    fn take_in(&mut self, alloc: Global, piece: &[u8]) -> Result<(), AllocError>
        ensures { MatchResult result
            (λ _. self.new ≡ record { rest = self.old.rest ++ piece.now; place = self.old.place }) (λ _. self.new ≡ self.old) }
    {
        let before = self.bytes.len();
        self.bytes.extend_from_slice(piece)?;
        let (_, unread) = self.bytes.split_at(self.end);
        match add_packets(alloc, unread, &mut self.packets) {
            Ok(left) => {
                self.end = self.bytes.len() - left;
                Ok(())
            }
            Err(refused) => {
                self.bytes.truncate(before);
                Err(refused)
            }
        }
    }

    /// Gives the next whole packet, by what waits.
    fn take_one(&mut self) -> Option<Packet>
        ensures { TakesOne LONGEST self.old self.new result }
    {
        let packet = self.packets.pop_front()?;
        let length = packet.bytes().len();
        self.start += length;
        self.place = self.place.saturating_add(length as u64);
        self.let_go();
        Some(packet)
    }

    /// Lets given bytes go where they are no fewer than those that wait.
    fn let_go(&mut self)
        ensures { self.new ≡ self.old }
    {
        let waiting = self.bytes.len() - self.start;
        if self.start < waiting {
            return;
        }
        self.bytes.copy_within(self.start.., 0);
        self.bytes.truncate(waiting);
        self.bytes.shrink_to(waiting.saturating_mul(2));
        self.end -= self.start;
        self.start = 0;
    }
}

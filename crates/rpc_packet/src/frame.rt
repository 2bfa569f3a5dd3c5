ghost use Rattle.std.specs.Prelude.{◌≡◌, IfOk};
ghost use Rattle.tars_frames.specs.Streams.{IsPacket, LONGEST};
ghost use Rattle.rpc_packet.specs.Outcomes.{IsSendable, IsWithin};
ghost use Rattle.rpc_packet.specs.Packets.{request_frame};
ghost use Rattle.rpc_packet.specs.Prepared.{with_both, at_longest, longest_frame};

use crate::filling::filled;
use crate::parts::{LENGTH_BYTES, OPEN_BYTES, lengths, parts};
use crate::short_number::ShortNumber;
use crate::writing::{frame, request_values};
use crate::{Packets, Request, WriteRefusal};
use std::alloc::Global;
use std::marker::Model;
use tars_model::Bytes8;

const ID_TAG: u8 = 4;

const TIMEOUT_TAG: u8 = 8;

/// The frame of a request whose id and timeout are open (docs/PROTOCOL.md, "Packets"). In a clause it is the request,
/// with the greatest of both.
#[derive(Drop)]
pub struct Frame {
    /// The frame with the longest id and timeout.
    longest: Bytes8,
    /// Where in it the id begins.
    id_at: usize,
    /// Where in it the timeout begins.
    timeout_at: usize,
    /// Room for the frame that is sent.
    room: Vec<u8>,
}

impl Model for Frame {
    ghost use Rattle.std.specs.Prelude.{◌≤◌, length, vec_capacity};
    ghost use Rattle.rpc_packet.specs.FrameParts.{IsOpen, IsEmpty};
    ghost use Rattle.rpc_packet.specs.Prepared.{said_by};
    ghost use Rattle.rpc_packet.specs.declared.request.Request.{Request};

    ghost Value = { Request };

    ghost view = { λ f. said_by f.longest };

    ghost invariant = { λ f. IsOpen f.longest f.id_at f.timeout_at × IsEmpty f.room × (length f.longest ≤ vec_capacity f.room) };
}

impl Frame {
    /// Takes all the memory that the frame will need. It is too long exactly where it is longer than a packet may be
    /// with the longest id and timeout; the request's own count for nothing.
    pub fn prepare(
        packets: &Packets,
        alloc: Global,
        mut request: Request,
    ) -> Result<Frame, WriteRefusal>
        requires sendable { IsSendable request }
        ensures request { IfOk result (λ frame. frame ≡ at_longest request) }
        ensures limit { IsWithin (longest_frame request) result }
    {
        request.id = i32::MAX;
        request.timeout = i32::MAX;
        let members = packets.request_members();
        let values = request_values(alloc, request)?;
        let (front, middle) = lengths(alloc, members, &values);
        let longest = frame(alloc, members, &values)?;
        let room = Vec::with_capacity(alloc, longest.as_slice().len())?;
        let id_at = LENGTH_BYTES + front as usize;
        Ok(Frame {
            longest,
            id_at,
            timeout_at: id_at + OPEN_BYTES + middle as usize,
            room,
        })
    }

    /// The frame of the request under this id and with this timeout in milliseconds. It takes no memory, and each byte is
    /// copied once.
    pub fn with_id(self, id: i32, timeout: i32) -> Bytes8
        ensures frame { result ≡ request_frame (with_both id timeout self) }
        ensures packet { IsPacket LONGEST result }
    {
        let Frame {
            longest,
            id_at,
            timeout_at,
            room,
        } = self;
        let id = ShortNumber::new(ID_TAG, id);
        let timeout = ShortNumber::new(TIMEOUT_TAG, timeout);
        let (front, middle, tail) = parts(longest.as_slice(), id_at, timeout_at);
        filled(room, front, id.as_slice(), middle, timeout.as_slice(), tail)
    }
}

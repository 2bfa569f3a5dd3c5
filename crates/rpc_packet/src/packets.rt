ghost use Rattle.std.specs.Prelude.{◌≡◌, Some, drop, IfOk, IfErr};
ghost use Rattle.tars_frames.specs.Streams.{IsPacket, LENGTH_BYTES, LONGEST};
ghost use Rattle.rpc_packet.specs.Packets.{request_members as members_of_request, response_members as members_of_response, request_frame as frame_of_request, response_frame as frame_of_response, read_request as request_read, read_response as response_read};
ghost use Rattle.tars_model.specs.Ranges.{IsInt};
ghost use Rattle.rpc_packet.specs.Outcomes.{IsReadAs, Refuses, IsSendable, IsAnswerable, IsWithin};

use crate::members::{request_members, response_members};
use crate::reading::{read_values, request_of, response_of};
use crate::writing::{frame, request_values, response_values};
use crate::{Request, Response, WriteRefusal};
use std::alloc::{AllocError, Global};
use std::marker::Model;
use tars_decode::Refuse;
use tars_model::{Bytes8, List, Member};

/// The members of the structs of packets, made once.
#[derive(Drop)]
pub struct Packets {
    request: List<Member>,
    response: List<Member>,
}

impl Model for Packets {
    ghost use Rattle.std.specs.Prelude.{◌≡◌};
    ghost use Rattle.rpc_packet.specs.Packets.{request_members, response_members};

    ghost Value = { Unit {0} };

    ghost view = { λ p. tt };

    ghost invariant = { λ p. (p.request ≡ request_members) × (p.response ≡ response_members) };
}

impl Packets {
    pub fn new(alloc: Global) -> Result<Packets, AllocError> {
        let request = request_members(alloc)?;
        let response = response_members(alloc)?;
        Ok(Packets { request, response })
    }

    /// The members of a request.
    pub(crate) fn request_members(&self) -> &[Member]
        ensures { result.now ≡ members_of_request }
    {
        self.request.as_slice()
    }

    /// The request in a packet.
    pub fn read_request(&self, alloc: Global, packet: &[u8]) -> Result<Request, Refuse>
        requires packet { IsPacket LONGEST packet.now }
        // It is returned exactly where the bytes after the length say one.
        ensures read { IsReadAs result (request_read packet.now) }
        ensures refused { IfErr result (Refuses members_of_request (drop LENGTH_BYTES packet.now)) }
        ensures fits { IfOk result (λ request. IsSendable request) }
    {
        let values = read_values(alloc, self.request.as_slice(), packet)?;
        match request_of(alloc, values) {
            Ok(request) => Ok(request),
            Err(AllocError) => Err(Refuse::Memory),
        }
    }

    /// The response in a packet.
    pub fn read_response(&self, alloc: Global, packet: &[u8]) -> Result<Response, Refuse>
        requires packet { IsPacket LONGEST packet.now }
        // It is returned exactly where the bytes after the length say one.
        ensures read { IsReadAs result (response_read packet.now) }
        ensures refused { IfErr result (Refuses members_of_response (drop LENGTH_BYTES packet.now)) }
        ensures fits { IfOk result (λ response. IsAnswerable response) }
        ensures ret { IfOk result (λ response. IsInt response.ret) }
    {
        let values = read_values(alloc, self.response.as_slice(), packet)?;
        match response_of(alloc, values) {
            Ok(response) => Ok(response),
            Err(AllocError) => Err(Refuse::Memory),
        }
    }

    /// The frame of a request, with all its members.
    pub fn write_request(&self, alloc: Global, request: Request) -> Result<Bytes8, WriteRefusal>
        requires sendable { IsSendable request }
        ensures written { IfOk result (λ frame. frame ≡ frame_of_request request) }
        // It is too long exactly where it is longer than a packet may be.
        ensures limit { IsWithin (frame_of_request request) result }
        // It reads back.
        ensures back { IfOk result (λ frame. request_read frame ≡ Some request) }
    {
        let values = request_values(alloc, request)?;
        frame(alloc, self.request.as_slice(), &values)
    }

    /// The frame of a response, with all its members.
    pub fn write_response(&self, alloc: Global, response: Response) -> Result<Bytes8, WriteRefusal>
        requires answerable { IsAnswerable response }
        ensures written { IfOk result (λ frame. frame ≡ frame_of_response response) }
        // It is too long exactly where it is longer than a packet may be.
        ensures limit { IsWithin (frame_of_response response) result }
        // It reads back.
        ensures back { IfOk result (λ frame. response_read frame ≡ Some response) }
    {
        let values = response_values(alloc, response)?;
        frame(alloc, self.response.as_slice(), &values)
    }
}

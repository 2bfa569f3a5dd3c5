//! What a node reads is offered to its queue.

ghost use Rattle.std.specs.Prelude.{◌≡◌, ◌++◌, ℕ, List, filter_map, fold, IfOk, IfSome, OnOk};
ghost use Rattle.std.specs.Option.{option_to_list};
ghost use Rattle.rpc_packet.specs.Outcomes.{IsSendable};
ghost use Rattle.rpc_packet.specs.Packets.{read_request as request_read};
ghost use Rattle.tars_frames.specs.Streams.{joined};
ghost use Rattle.run_course.specs.Nodes.{Node, offers};
ghost use Rattle.run_engine.specs.Served.{after_offer};
ghost use Rattle.run_engine.specs.Tracks.{Reads, TracksSide};

use crate::channel::Channel;
use crate::node::NodeEnd;
use rpc_packet::{Packets, Request};
use session_service::Service;
use std::alloc::{AllocError, Global};
use tars_decode::Refuse;
use tars_frames::Packet;
use tars_model::Bytes8;

/// The request that a packet says, if it says one.
fn request_in(
    alloc: Global,
    packets: &Packets,
    packet: &Packet,
) -> Result<Option<Request>, AllocError>
    ensures read { IfOk result (λ request. request ≡ request_read packet.now) }
    ensures fits { IfOk result (λ request. IfSome request (λ r. IsSendable r)) }
{
    match packets.read_request(alloc, packet.bytes()) {
        Ok(request) => Ok(Some(request)),
        Err(Refuse::Memory) => Err(AllocError),
        Err(Refuse::Malformed(_)) => Ok(None),
        Err(Refuse::Missing { path: _ }) => Ok(None),
        Err(Refuse::Mismatch { path: _, why: _ }) => Ok(None),
    }
}

/// Writes a frame, if there is one.
pub(crate) fn put(out: &mut Channel, frame: Option<Bytes8>) -> Result<(), AllocError>
    ensures { (stream : List ℕ) (at : ℕ) → Reads out.old stream at
        → OnOk result (Reads out.new (stream ++ joined (option_to_list frame)) at) }
{
    match frame {
        Some(frame) => out.write(frame.as_slice()),
        None => Ok(()),
    }
}

/// The request that a packet says is offered to the queue; a packet that says none is dropped.
fn serve_one(
    alloc: Global,
    service: &Service,
    node: &mut NodeEnd,
    to_caller: &mut Channel,
    packet: &Packet,
    now: u32,
) -> Result<(), AllocError>
    ensures { (n : Node) (at : ℕ) → TracksSide service.now node.old to_caller.old n at
        → OnOk result (TracksSide service.now node.new to_caller.new (after_offer service.now now n (request_read packet.now)) at) }
{
    let Some(request) = request_in(alloc, service.packets(), packet)? else {
        return Ok(());
    };
    let frame = node.offer(alloc, service, request, now)?;
    put(to_caller, frame)
}

/// The requests that packets say are offered, one after another.
pub(crate) fn serve_all(
    alloc: Global,
    service: &Service,
    node: &mut NodeEnd,
    to_caller: &mut Channel,
    news: &[Packet],
    now: u32,
) -> Result<(), AllocError>
    ensures { (n : Node) (at : ℕ) → TracksSide service.now node.old to_caller.old n at
        → OnOk result (TracksSide service.now node.new to_caller.new (fold (offers service.now now) n (filter_map request_read news.now)) at) }
{
    for packet in news {
        serve_one(alloc, service, node, to_caller, packet, now)?;
    }
    Ok(())
}

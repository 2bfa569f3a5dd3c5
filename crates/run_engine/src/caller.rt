//! The caller's end of a link: what is read there settles calls.

ghost use Rattle.std.specs.Prelude.{◌≡◌, List, fold, IfOk, IfSome, OnOk};
ghost use Rattle.rpc_packet.specs.Packets.{read_response as response_read};
ghost use Rattle.script_session.specs.declared.session.Session.{Session};
ghost use Rattle.run_course.specs.Courses.{Desk, came, named_id};
ghost use Rattle.run_engine.specs.Claims.{Claim, IsReply, fate_of_reply, claims_after};
ghost use Rattle.run_engine.specs.Tracks.{TracksDesk};

use crate::claims::Claims;
use crate::fate::Fate;
use rpc_packet::{Packets, Response};
use script_session::{CallId, GotFate, GotRow};
use std::alloc::{AllocError, Global};
use tars_decode::Refuse;
use tars_frames::Packet;
use tars_model::Bytes8;

/// The response that a packet says, if it says one.
fn response_in(
    alloc: Global,
    packets: &Packets,
    packet: &Packet,
) -> Result<Option<Response>, AllocError>
    ensures read { IfOk result (λ response. response ≡ response_read packet.now) }
    ensures fits { IfOk result (λ response. IfSome response (λ r. IsReply r)) }
{
    match packets.read_response(alloc, packet.bytes()) {
        Ok(response) => Ok(Some(response)),
        Err(Refuse::Memory) => Err(AllocError),
        Err(Refuse::Malformed(_)) => Ok(None),
        Err(Refuse::Missing { path: _ }) => Ok(None),
        Err(Refuse::Mismatch { path: _, why: _ }) => Ok(None),
    }
}

/// The id that a response names. No call has the id 0.
fn id_named(id: i32) -> u32
    ensures { result ≡ named_id id }
{
    u32::try_from(id).unwrap_or(0)
}

/// A reply settles the call that is open under the id that it names, or is late. `packet` is its number among those that were
/// got of the node, from 1.
fn settle<T: Claims>(table: &mut T, node: u32, packet: u64, reply: Option<Response>) -> GotFate
    requires fits { IfSome reply (λ r. IsReply r) }
    ensures fate { (claims : List Claim) → T.IsOf table.old claims → result ≡ fate_of_reply reply claims }
    ensures settled { (claims : List Claim) → T.IsOf table.old claims → T.IsOf table.new (claims_after node packet reply claims) }
{
    let Some(response) = reply else {
        return GotFate::Late { word: 0 };
    };
    let id = id_named(response.id);
    let fate = Fate::Replied {
        node,
        packet,
        response,
    };
    if table.settle(id, fate) {
        GotFate::Used { id: CallId(id) }
    } else {
        GotFate::Late { word: 0 }
    }
}

/// A packet comes.
fn take_in<T: Claims>(
    alloc: Global,
    packets: &Packets,
    table: &mut T,
    node: u32,
    got: &mut Vec<GotRow>,
    packet: Packet,
) -> Result<(), AllocError>
    ensures { (s : Session) (d : Desk) → TracksDesk T.IsOf table.old got.old.items d
        → OnOk result (TracksDesk T.IsOf table.new got.new.items (came s node d packet)) }
{
    let reply = response_in(alloc, packets, &packet)?;
    let fate = settle(table, node, got.len() as u64 + 1, reply);
    let packet = Bytes8::from_vec(packet.into_vec());
    got.push(GotRow { packet, fate })?;
    Ok(())
}

/// Packets come, one after another.
pub(crate) fn take_all_in<T: Claims>(
    alloc: Global,
    packets: &Packets,
    table: &mut T,
    node: u32,
    got: &mut Vec<GotRow>,
    news: Vec<Packet>,
) -> Result<(), AllocError>
    ensures { (s : Session) (d : Desk) → TracksDesk T.IsOf table.old got.old.items d
        → OnOk result (TracksDesk T.IsOf table.new got.new.items (fold (came s node) d news.items)) }
{
    for packet in news {
        take_in(alloc, packets, table, node, got, packet)?;
    }
    Ok(())
}

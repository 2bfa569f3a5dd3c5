//! Responses to requests.

ghost use Rattle.std.specs.Prelude.{◌≡◌, ◌≤◌, true, length, Some as is_there, IfOk};
ghost use Rattle.tars_model.specs.Members.{MAX_PARAMS, HaveRisingTags, reply_members_of};
ghost use Rattle.tars_model.specs.Values.{fit_members};
ghost use Rattle.tars_codec.specs.Written.{written};
ghost use Rattle.tars_decode.specs.Decoding.{MembersFit};
ghost use Rattle.servant_core.specs.Answers.{OVERLOAD as REFUSED_FULL, QUEUE_TIMEOUT as WAITED, is_one, unseen as unseen_is, is_long as is_long_is, code_alone as code_alone_is, response_to as response_to_is, within_limit as limited_is, replied as replied_is};
ghost use Rattle.servant_core.specs.Servants.{IsReplyUnder};

use crate::Reply;
use bytes::BytesMut;
use rpc_packet::{Packets, Request, Response, WriteRefusal};
use std::alloc::{AllocError, Global};
use tars_codec::{encode, encoded_len};
use tars_model::{Bytes8, FuncDesc, List, Member, Schema, Value, reply_of};

pub(crate) const SUCCESS: i32 = 0;

/// A request waited in the node's queue for longer than it may.
const QUEUE_TIMEOUT: i32 = -6;

/// The node's queue is full.
const OVERLOAD: i32 = -9;

/// What comes back is too long.
const TOO_LONG: i32 = -2;

/// How long a packet may be.
const MAX_PACKET: usize = 10_485_760;

/// A response has at most so many bytes beside its body.
const MAX_BESIDE: usize = 128;

fn response_to(alloc: Global, request: &Request, code: i32, body: Bytes8) -> Response
    ensures { result ≡ response_to_is request.now code body }
{
    Response {
        version: 1,
        kind: 0,
        id: request.id,
        message: request.message,
        ret: code,
        body,
        status: List::new(alloc),
        note: Bytes8::from_vec(Vec::new(alloc)),
    }
}

/// A return code without a body.
pub(crate) fn code_alone(alloc: Global, request: &Request, code: i32) -> Response
    ensures { result ≡ code_alone_is request.now code }
{
    response_to(alloc, request, code, Bytes8::from_vec(Vec::new(alloc)))
}

pub(crate) fn is_one_way(request: &Request) -> bool
    ensures { result ≡ is_one request.now.kind }
{
    request.kind == 1
}

/// A return code to a request that no servant sees.
#[tactic(auto, unfolding(crate::specs::Answers::unseen))]
fn unseen(alloc: Global, request: &Request, code: i32) -> Option<Response>
    ensures { result ≡ unseen_is request.now code }
{
    if is_one_way(request) {
        return None;
    }
    Some(code_alone(alloc, request, code))
}

/// What is answered to a request that comes when the node's queue is full. None where it is one-way.
pub fn overloaded(alloc: Global, request: &Request) -> Option<Response>
    ensures { result ≡ unseen_is request.now REFUSED_FULL }
{
    unseen(alloc, request, OVERLOAD)
}

/// What is answered to a request that waited in the node's queue for longer than it may. None where it is one-way.
pub fn timed_out(alloc: Global, request: &Request) -> Option<Response>
    ensures { result ≡ unseen_is request.now WAITED }
{
    unseen(alloc, request, QUEUE_TIMEOUT)
}

/// Whether a response with this body is longer than a packet may be.
fn is_long(
    alloc: Global,
    packets: &Packets,
    request: &Request,
    body: &[u8],
) -> Result<bool, AllocError>
    ensures { IfOk result (λ long. long ≡ is_long_is request.now body.now) }
{
    if body.len() > MAX_PACKET {
        return Ok(true);
    }
    if body.len() <= MAX_PACKET - MAX_BESIDE {
        return Ok(false);
    }
    // Near the limit the frame itself tells.
    let body = Bytes8::from_slice(alloc, body)?;
    match packets.write_response(alloc, response_to(alloc, request, SUCCESS, body)) {
        Ok(_) => Ok(false),
        Err(WriteRefusal::TooLong { length: _ }) => Ok(true),
        Err(WriteRefusal::Memory) => Err(AllocError),
    }
}

/// Success with this body, or the code alone where that would be longer than a packet may be.
fn within_limit(
    alloc: Global,
    packets: &Packets,
    request: &Request,
    body: Bytes8,
) -> Result<Response, AllocError>
    ensures { IfOk result (λ response. response ≡ limited_is request.now body) }
{
    if is_long(alloc, packets, request, body.as_slice())? {
        Ok(code_alone(alloc, request, TOO_LONG))
    } else {
        Ok(response_to(alloc, request, SUCCESS, body))
    }
}

/// The bytes that spell the values under the members.
fn write_values(
    alloc: Global,
    schema: &Schema,
    members: &[Member],
    values: &[Value],
) -> Result<Bytes8, AllocError>
    requires rising { HaveRisingTags members.now }
    requires fits { fit_members schema.now members.now values.now ≡ true }
    ensures { IfOk result (λ body. body ≡ written schema.now members.now values.now) }
{
    let mut body = BytesMut::new(alloc);
    encode(schema, members, values, &mut body)?;
    Ok(Bytes8::from_vec(body.into_vec()?))
}

/// Success with values, or the code alone where these are too long.
fn with_values(
    alloc: Global,
    packets: &Packets,
    schema: &Schema,
    func: &FuncDesc,
    request: &Request,
    values: &[Value],
) -> Result<Response, AllocError>
    requires few { length func.now.params ≤ MAX_PARAMS }
    requires members { MembersFit schema.now (reply_members_of func.now) }
    requires fits { fit_members schema.now (reply_members_of func.now) values.now ≡ true }
    ensures { IfOk result (λ response. response ≡ limited_is request.now (written schema.now (reply_members_of func.now) values.now)) }
{
    let members = reply_of(alloc, func)?;
    let members = members.as_slice();
    if encoded_len(schema, members, values) > MAX_PACKET as u64 {
        return Ok(code_alone(alloc, request, TOO_LONG));
    }
    let body = write_values(alloc, schema, members, values)?;
    within_limit(alloc, packets, request, body)
}

/// The response to a two-way request, by what the servant replies.
pub(crate) fn replied(
    alloc: Global,
    packets: &Packets,
    schema: &Schema,
    func: &FuncDesc,
    request: &Request,
    reply: Reply,
) -> Result<Option<Response>, AllocError>
    requires few { length func.now.params ≤ MAX_PARAMS }
    requires members { MembersFit schema.now (reply_members_of func.now) }
    requires suited { IsReplyUnder schema.now (reply_members_of func.now) reply }
    ensures { IfOk result (λ response. response ≡ replied_is schema.now (is_there func.now) request.now reply) }
{
    match reply {
        Reply::Values(values) => {
            let response = with_values(alloc, packets, schema, func, request, values.as_slice())?;
            Ok(Some(response))
        }
        Reply::Code(code) => Ok(Some(code_alone(alloc, request, code))),
        Reply::Silent => Ok(None),
    }
}

//! What a packet says, from the values of its members.

ghost use Rattle.std.specs.Prelude.{◌≡◌, ◌<◌, true, length, drop, remove, IfOk, IfErr};
ghost use Rattle.tars_model.specs.Declarations.{nothing_declared};
ghost use Rattle.tars_model.specs.Values.{is_signed, fit_members};
ghost use Rattle.tars_decode.specs.Decoding.{MembersFit};
ghost use Rattle.tars_frames.specs.Streams.{IsPacket, LENGTH_BYTES, LONGEST};
ghost use Rattle.rpc_packet.specs.Bodies.{values_of};
ghost use Rattle.rpc_packet.specs.Packets.{number_at as number_among, bytes_at, texts_at, request_in, response_in, request_members, response_members};
ghost use Rattle.rpc_packet.specs.Outcomes.{IsReadAs, Refuses, IsSendable, IsAnswerable};

use crate::texts::{into_bytes, into_texts};
use crate::{Request, Response, TextPair};
use std::alloc::{AllocError, Global};
use tars_codec::decode;
use tars_decode::Refuse;
use tars_model::{Bytes8, List, Member, Schema, Value};

/// How many bytes the length of a packet takes.
const LENGTH_BYTES: usize = 4;

/// The values of members in a packet.
pub(crate) fn read_values(
    alloc: Global,
    members: &[Member],
    packet: &[u8],
) -> Result<List<Value>, Refuse>
    requires packet { IsPacket LONGEST packet.now }
    requires members { MembersFit nothing_declared members.now }
    ensures read { IsReadAs result (values_of nothing_declared members.now (drop LENGTH_BYTES packet.now)) }
    ensures refused { IfErr result (Refuses members.now (drop LENGTH_BYTES packet.now)) }
    ensures fits { IfOk result (λ values. fit_members nothing_declared members.now values ≡ true) }
{
    decode(
        alloc,
        &Schema::empty(alloc),
        members,
        &packet[LENGTH_BYTES..],
    )
}

/// The number at a place among values.
fn number_at(values: &[Value], place: usize) -> i64
    ensures { result ≡ number_among values.now place }
{
    match values.get(place) {
        Some(Value::Num(number)) => *number,
        _ => 0,
    }
}

/// A number that is a `byte`.
fn kind_at(values: &[Value], place: usize) -> i8
    requires { is_signed 7 (number_among values.now place) ≡ true }
    ensures { result ≡ number_among values.now place }
{
    number_at(values, place) as i8
}

/// A number that is a `short`.
fn short_at(values: &[Value], place: usize) -> i16
    requires { is_signed 15 (number_among values.now place) ≡ true }
    ensures { result ≡ number_among values.now place }
{
    number_at(values, place) as i16
}

/// A number that is an `int`.
fn int_at(values: &[Value], place: usize) -> i32
    requires { is_signed 31 (number_among values.now place) ≡ true }
    ensures { result ≡ number_among values.now place }
{
    number_at(values, place) as i32
}

/// Takes the bytes of a text or of a `vector<byte>` out.
fn take_bytes(alloc: Global, values: &mut List<Value>, place: usize) -> Bytes8
    requires { place < length values.old }
    ensures said { result ≡ bytes_at values.old place }
    ensures rest { values.new ≡ remove values.old place }
{
    into_bytes(alloc, values.remove(place))
}

/// Takes the entries of a `map<string, string>` out.
fn take_texts(
    alloc: Global,
    values: &mut List<Value>,
    place: usize,
) -> Result<List<TextPair>, AllocError>
    requires { place < length values.old }
    ensures said { IfOk result (λ texts. texts ≡ texts_at values.old place) }
    ensures rest { values.new ≡ remove values.old place }
{
    into_texts(alloc, values.remove(place))
}

pub(crate) fn request_of(alloc: Global, mut values: List<Value>) -> Result<Request, AllocError>
    requires { fit_members nothing_declared request_members values ≡ true }
    ensures said { IfOk result (λ request. request ≡ request_in values) }
    ensures fits { IfOk result (λ request. IsSendable request) }
{
    let version = short_at(values.as_slice(), 0);
    let kind = kind_at(values.as_slice(), 1);
    let message = int_at(values.as_slice(), 2);
    let id = int_at(values.as_slice(), 3);
    let timeout = int_at(values.as_slice(), 7);
    // From the last on, so that the places before stay.
    let status = take_texts(alloc, &mut values, 9)?;
    let context = take_texts(alloc, &mut values, 8)?;
    let body = take_bytes(alloc, &mut values, 6);
    let func = take_bytes(alloc, &mut values, 5);
    let servant = take_bytes(alloc, &mut values, 4);
    Ok(Request {
        version,
        kind,
        message,
        id,
        servant,
        func,
        body,
        timeout,
        context,
        status,
    })
}

pub(crate) fn response_of(alloc: Global, mut values: List<Value>) -> Result<Response, AllocError>
    requires { fit_members nothing_declared response_members values ≡ true }
    ensures said { IfOk result (λ response. response ≡ response_in values) }
    ensures fits { IfOk result (λ response. IsAnswerable response) }
{
    let version = short_at(values.as_slice(), 0);
    let kind = kind_at(values.as_slice(), 1);
    let id = int_at(values.as_slice(), 2);
    let message = int_at(values.as_slice(), 3);
    let ret = int_at(values.as_slice(), 4);
    // From the last on, so that the places before stay.
    let note = take_bytes(alloc, &mut values, 7);
    let status = take_texts(alloc, &mut values, 6)?;
    let body = take_bytes(alloc, &mut values, 5);
    Ok(Response {
        version,
        kind,
        id,
        message,
        ret,
        body,
        status,
        note,
    })
}

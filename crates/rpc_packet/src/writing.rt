//! Requests and responses as frames.

ghost use Rattle.std.specs.Prelude.{◌≡◌, ◌+◌, true, length as byte_count, IfOk};
ghost use Rattle.tars_model.specs.Declarations.{nothing_declared};
ghost use Rattle.tars_model.specs.Members.{HaveRisingTags};
ghost use Rattle.tars_model.specs.Values.{fit_members};
ghost use Rattle.tars_codec.specs.Written.{written};
ghost use Rattle.tars_frames.specs.Streams.{LENGTH_BYTES as PACKET_LENGTH_BYTES, framed};
ghost use Rattle.wire_reading.specs.Readings.{AreBytes};
ghost use Rattle.rpc_packet.specs.Packets.{request_members, request_values as values_of_request, response_members, response_values as values_of_response};
ghost use Rattle.rpc_packet.specs.Outcomes.{IsSendable, IsAnswerable, IsWithin};

use crate::texts::texts_value;
use crate::{Request, Response, WriteRefusal};
use bytes::{BufMut, BytesMut};
use std::alloc::{AllocError, Global};
use tars_codec::{encode, encoded_len};
use tars_model::{Bytes8, Member, Schema, Value};

/// How many bytes the length of a packet takes, which counts them too.
const LENGTH_BYTES: u64 = 4;

/// The most bytes of a packet.
const MAX_PACKET: u64 = 10_485_760;

/// Bytes in memory are below 256.
fn are_bytes(bytes: &[u8])
    ensures { AreBytes bytes.now }
{}

/// A frame of this length.
#[tactic(auto, unfolding(tars_frames::specs::Streams::framed))]
fn put_frame(
    alloc: Global,
    members: &[Member],
    values: &[Value],
    length: u32,
) -> Result<Bytes8, AllocError>
    requires rising { HaveRisingTags members.now }
    requires fits { fit_members nothing_declared members.now values.now ≡ true }
    requires length { length ≡ byte_count (written nothing_declared members.now values.now) + PACKET_LENGTH_BYTES }
    ensures written { IfOk result (λ frame. frame ≡ framed (written nothing_declared members.now values.now)) }
    ensures bytes { IfOk result (λ frame. AreBytes frame) }
{
    let mut frame = BytesMut::with_capacity(alloc, length as usize)?;
    frame.put_u32(length)?;
    encode(&Schema::empty(alloc), members, values, &mut frame)?;
    let frame = Bytes8::from_vec(frame.into_vec()?);
    are_bytes(frame.as_slice());
    Ok(frame)
}

/// The values of members, after the length.
#[tactic(auto, unfolding(tars_frames::specs::Streams::framed))]
pub(crate) fn frame(
    alloc: Global,
    members: &[Member],
    values: &[Value],
) -> Result<Bytes8, WriteRefusal>
    requires rising { HaveRisingTags members.now }
    requires fits { fit_members nothing_declared members.now values.now ≡ true }
    ensures written { IfOk result (λ frame. frame ≡ framed (written nothing_declared members.now values.now)) }
    ensures limit { IsWithin (framed (written nothing_declared members.now values.now)) result }
    ensures bytes { IfOk result (λ frame. AreBytes frame) }
{
    let body = encoded_len(&Schema::empty(alloc), members, values);
    let length = body.saturating_add(LENGTH_BYTES);
    if length > MAX_PACKET {
        return Err(WriteRefusal::TooLong { length });
    }
    Ok(put_frame(alloc, members, values, length as u32)?)
}

pub(crate) fn request_values(alloc: Global, request: Request) -> Result<[Value; 10], AllocError>
    requires { IsSendable request }
    ensures value { IfOk result (λ values. values ≡ values_of_request request) }
    ensures fits { IfOk result (λ values. fit_members nothing_declared request_members values ≡ true) }
{
    let Request {
        version,
        kind,
        message,
        id,
        servant,
        func,
        body,
        timeout,
        context,
        status,
    } = request;
    let context = texts_value(alloc, context)?;
    let status = texts_value(alloc, status)?;
    Ok([
        Value::Num(i64::from(version)),
        Value::Num(i64::from(kind)),
        Value::Num(i64::from(message)),
        Value::Num(i64::from(id)),
        Value::Text(servant),
        Value::Text(func),
        Value::Blob(body),
        Value::Num(i64::from(timeout)),
        context,
        status,
    ])
}

pub(crate) fn response_values(alloc: Global, response: Response) -> Result<[Value; 8], AllocError>
    requires { IsAnswerable response }
    ensures value { IfOk result (λ values. values ≡ values_of_response response) }
    ensures fits { IfOk result (λ values. fit_members nothing_declared response_members values ≡ true) }
{
    let Response {
        version,
        kind,
        id,
        message,
        ret,
        body,
        status,
        note,
    } = response;
    let status = texts_value(alloc, status)?;
    Ok([
        Value::Num(i64::from(version)),
        Value::Num(i64::from(kind)),
        Value::Num(i64::from(id)),
        Value::Num(i64::from(message)),
        Value::Num(i64::from(ret)),
        Value::Blob(body),
        status,
        Value::Text(note),
    ])
}

//! Requests and responses that are written.

ghost use Rattle.std.specs.Prelude.{◌≡◌, ◌<◌, ◌^◌, length, IfOk, IfSome};
ghost use Rattle.rpc_packet.specs.Outcomes.{IsSendable, IsAnswerable};

use crate::fields::put_bytes;
use crate::packets::packet_of;
use crate::reading::put_refusal;
use row_pages::{Page, split_word};
use rpc_packet::{Frame, Packets, Request, Response, WriteRefusal};
use std::alloc::{AllocError, Global};
use tars_frames::Packet;
use tars_model::Bytes8;

/// The most bytes of a body that a row asks for.
const MOST: u32 = 1 << 24;

/// The frame of a request under this id and with this timeout, which was prepared before these were known.
fn prepared(
    packets: &Packets,
    alloc: Global,
    request: Request,
    id: i32,
    timeout: i32,
) -> Result<Bytes8, WriteRefusal>
    requires { IsSendable request }
{
    let frame = Frame::prepare(packets, alloc, request)?;
    Ok(frame.with_id(id, timeout))
}

/// Adds a frame, or how long it would be.
fn put_frame(page: &mut Page, frame: &Result<Bytes8, WriteRefusal>) -> Result<(), AllocError> {
    match frame {
        Ok(frame) => Ok(put_bytes(page, frame.as_slice())),
        Err(WriteRefusal::TooLong { length }) => Ok(page.show(format_args!("too long {length}"))),
        Err(WriteRefusal::Memory) => Err(AllocError),
    }
}

/// Whether there are two frames of the same bytes.
fn are_same(first: &Result<Bytes8, WriteRefusal>, second: &Result<Bytes8, WriteRefusal>) -> bool {
    match (first, second) {
        (Ok(first), Ok(second)) => first.as_slice() == second.as_slice(),
        _ => false,
    }
}

/// `own`, or `LENGTH`: a body of so many bytes in the place of the one that is there.
fn body_of(alloc: Global, word: &str, own: Bytes8) -> Result<Bytes8, AllocError>
    requires { length own < 2 ^ 31 }
    ensures { IfOk result (λ body. length body < 2 ^ 31) }
{
    match word.parse::<u32>() {
        Ok(length) if length < MOST => Ok(Bytes8::from_vec(Vec::from_elem(
            alloc,
            7,
            length as usize,
        )?)),
        _ => Ok(own),
    }
}

/// The request in a packet. Where there is none, its refusal is added.
fn request_in(
    page: &mut Page,
    packets: &Packets,
    packet: &Packet,
) -> Result<Option<Request>, AllocError>
    ensures { IfOk result (λ request. IfSome request IsSendable) }
{
    match packets.read_request(page.alloc(), packet.bytes()) {
        Ok(request) => Ok(Some(request)),
        Err(refuse) => {
            put_refusal(page, &refuse)?;
            Ok(None)
        }
    }
}

/// The same with another body.
fn request_of(
    page: &mut Page,
    packets: &Packets,
    packet: &Packet,
    body: &str,
) -> Result<Option<Request>, AllocError>
    ensures { IfOk result (λ request. IfSome request IsSendable) }
{
    let Some(mut request) = request_in(page, packets, packet)? else {
        return Ok(None);
    };
    request.body = body_of(page.alloc(), body, request.body)?;
    Ok(Some(request))
}

/// Adds the frame of the request in a packet under this id and with this timeout, as it is written and as it is prepared before.
fn put_both(
    page: &mut Page,
    packet: &Packet,
    id: i32,
    timeout: i32,
    body: &str,
) -> Result<(), AllocError> {
    let packets = Packets::new(page.alloc())?;
    let Some(mut request) = request_of(page, &packets, packet, body)? else {
        return Ok(());
    };
    request.id = id;
    request.timeout = timeout;
    let written = packets.write_request(page.alloc(), request);
    put_frame(page, &written)?;
    // The id and the timeout of the packet itself count for nothing.
    let Some(request) = request_of(page, &packets, packet, body)? else {
        return Ok(());
    };
    let prepared = prepared(&packets, page.alloc(), request, id, timeout);
    if are_same(&written, &prepared) {
        return Ok(page.add("; prepared the same"));
    }
    page.add("; prepared ");
    put_frame(page, &prepared)
}

/// `ID TIMEOUT BODY HEX`: the request of a packet, written under this id and with this timeout.
pub fn put_written_request(page: &mut Page, text: &str) -> Result<(), AllocError> {
    let (id, text) = split_word(text);
    let (timeout, text) = split_word(text);
    let (body, digits) = split_word(text);
    let id = id.parse::<i32>().unwrap_or(0);
    let timeout = timeout.parse::<i32>().unwrap_or(0);
    match packet_of(page, digits)? {
        Some(packet) => put_both(page, &packet, id, timeout, body),
        None => Ok(()),
    }
}

/// Adds the frame of the response in a packet.
fn put_response_of(page: &mut Page, packet: &Packet, body: &str) -> Result<(), AllocError> {
    let packets = Packets::new(page.alloc())?;
    match packets.read_response(page.alloc(), packet.bytes()) {
        Ok(mut response) => {
            response.body = body_of(page.alloc(), body, response.body)?;
            put_frame(page, &packets.write_response(page.alloc(), response))
        }
        Err(refuse) => put_refusal(page, &refuse),
    }
}

/// `BODY HEX`: the response of a packet, written.
pub fn put_written_response(page: &mut Page, text: &str) -> Result<(), AllocError> {
    let (body, digits) = split_word(text);
    match packet_of(page, digits)? {
        Some(packet) => put_response_of(page, &packet, body),
        None => Ok(()),
    }
}

//! What is done to one packet many times.

ghost use Rattle.std.specs.Prelude.{◌≡◌, ◌<◌, ◌^◌, length, IfSome, OnSome};
ghost use Rattle.packet_tables.specs.Servants.{SuitsAt};
ghost use Rattle.rpc_packet.specs.Outcomes.{IsSendable, IsAnswerable};

use crate::answers::answered;
use crate::interfaces::{Opened, open};
use crate::packets::first_packet;
use crate::rules::table_of;
use row_pages::Page;
use rpc_packet::{Frame, Packets, Request, Response};
use servant_core::Servant;
use std::alloc::Global;
use std::{fs, io};
use tars_frames::Packet;

/// What is called where a request is answered, and by which rule.
const INTERFACE: &[u8] = b"module M{interface Calc{int add(int a,int b);};};";

const RULE: &str = "add add a b";

fn request_of(packets: &Packets, alloc: Global, packet: &Packet) -> Option<Request>
    ensures { IfSome result IsSendable }
{
    match packets.read_request(alloc, packet.bytes()) {
        Ok(request) => Some(request),
        Err(_) => None,
    }
}

fn response_of(packets: &Packets, alloc: Global, packet: &Packet) -> Option<Response>
    ensures { IfSome result IsAnswerable }
{
    match packets.read_response(alloc, packet.bytes()) {
        Ok(response) => Some(response),
        Err(_) => None,
    }
}

/// Does what a word says to a packet, and gives how many bytes came of it.
fn done(packets: &Packets, alloc: Global, packet: &Packet, work: &str) -> Option<usize> {
    match work {
        "read-request" => Some(request_of(packets, alloc, packet)?.body.as_slice().len()),
        "write-request" => {
            let request = request_of(packets, alloc, packet)?;
            Some(packets.write_request(alloc, request).ok()?.as_slice().len())
        }
        "prepare-request" => {
            let request = request_of(packets, alloc, packet)?;
            let frame = Frame::prepare(packets, alloc, request).ok()?;
            Some(frame.with_id(1, 3000).as_slice().len())
        }
        "read-response" => Some(response_of(packets, alloc, packet)?.body.as_slice().len()),
        "write-response" => {
            let response = response_of(packets, alloc, packet)?;
            Some(
                packets
                    .write_response(alloc, response)
                    .ok()?
                    .as_slice()
                    .len(),
            )
        }
        _ => None,
    }
}

/// How many bytes came of it, done so many times.
fn done_often(
    packets: &Packets,
    alloc: Global,
    packet: &Packet,
    work: &str,
    times: u32,
) -> Option<u64> {
    let mut bytes = 0_u64;
    for _ in 0..times {
        bytes = bytes.saturating_add(done(packets, alloc, packet, work)? as u64);
    }
    Some(bytes)
}

/// The same of answering the request in a packet.
fn answer_often<S: Servant>(
    packets: &Packets,
    alloc: Global,
    opened: &Opened,
    servant: &mut S,
    request: &Request,
    times: u32,
) -> Option<u64>
    requires interface { opened.now.interface < length opened.now.schema.interfaces }
    requires suited { SuitsAt opened.now.schema opened.now.interface (S.meaning servant.old) }
    requires short { length request.now.body < 2 ^ 32 }
{
    let mut bytes = 0_u64;
    for _ in 0..times {
        let response = answered(alloc, packets, opened, servant, request).ok()??;
        bytes = bytes.saturating_add(response.body.as_slice().len() as u64);
    }
    Some(bytes)
}

/// The same by a table that adds.
fn add_often(packets: &Packets, alloc: Global, packet: &Packet, times: u32) -> Option<u64> {
    let request = request_of(packets, alloc, packet)?;
    let opened = open(alloc, INTERFACE)?;
    let mut page = Page::new(alloc);
    let Ok(mut table) = table_of(&mut page, &opened.schema, opened.interface, RULE) else {
        return None;
    };
    answer_often(packets, alloc, &opened, &mut table, &request, times)
}

/// How many bytes come of what a word says, done so many times to the packet at the start of a file.
fn bytes_done(alloc: Global, file: &[u8], work: &str, times: u32) -> Option<u64> {
    let packets = Packets::new(alloc).ok()?;
    let packet = first_packet(alloc, file).ok()??;
    match work {
        "answer" => add_often(&packets, alloc, &packet, times),
        _ => done_often(&packets, alloc, &packet, work, times),
    }
}

/// Does what a word says so many times to the packet of a file, and prints how many bytes came of it.
pub fn print_times(rt: &HostRuntime, name: &str, work: &str, times: &str) -> io::Result<()> {
    let file = fs::read(rt, name)?;
    let times = times.parse::<u32>().unwrap_or(0);
    match bytes_done(rt.alloc(), &file, work, times) {
        Some(bytes) => println!(rt; "{work}: {bytes} bytes"),
        None => println!(rt; "{work}: nothing"),
    }
}

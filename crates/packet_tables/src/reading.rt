//! What packets say.

use crate::fields::{put_request_fields, put_response_fields};
use crate::packets::packet_of;
use row_pages::Page;
use rpc_packet::Packets;
use std::alloc::AllocError;
use std::str;
use tars_decode::Refuse;
use text_buffer::TextBuffer;

/// Adds why bytes were refused.
pub fn put_refusal(page: &mut Page, refuse: &Refuse) -> Result<(), AllocError> {
    if let Refuse::Memory = refuse {
        return Err(AllocError);
    }
    let mut text = TextBuffer::new(page.alloc());
    refuse_lines::put_refuse(&mut text, refuse)?;
    Ok(page.add(str::from_utf8(&text.into_bytes()).unwrap_or("?")))
}

/// `HEX`: what a packet says as a request.
pub fn put_request(page: &mut Page, digits: &str) -> Result<(), AllocError> {
    let Some(packet) = packet_of(page, digits)? else {
        return Ok(());
    };
    let packets = Packets::new(page.alloc())?;
    match packets.read_request(page.alloc(), packet.bytes()) {
        Ok(request) => Ok(put_request_fields(page, &request)),
        Err(refuse) => put_refusal(page, &refuse),
    }
}

/// `HEX`: what a packet says as a response.
pub fn put_response(page: &mut Page, digits: &str) -> Result<(), AllocError> {
    let Some(packet) = packet_of(page, digits)? else {
        return Ok(());
    };
    let packets = Packets::new(page.alloc())?;
    match packets.read_response(page.alloc(), packet.bytes()) {
        Ok(response) => Ok(put_response_fields(page, &response)),
        Err(refuse) => put_refusal(page, &refuse),
    }
}

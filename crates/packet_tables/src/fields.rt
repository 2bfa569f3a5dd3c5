//! The fields of packets, as they are printed: numbers, texts and bytes with blanks between them.

use row_pages::Page;
use rpc_packet::{Request, Response, TextPair};
use std::str;

/// The most bytes that are printed one by one.
const SHOWN: usize = 512;

/// Adds bytes in hexadecimal digits, `-` where there are none, and how many they are where they are many.
pub fn put_bytes(page: &mut Page, bytes: &[u8]) {
    match bytes.len() {
        0 => page.add("-"),
        1..=SHOWN => page.add_hex(bytes),
        length => page.show(format_args!("{length} bytes")),
    }
}

/// Whether a byte stands in a text as itself.
fn is_plain(byte: u8) -> bool {
    byte >= b' ' && byte <= b'~' && byte != b'"'
}

/// Adds a text of a few plain bytes in quotes, and the bytes of another after a `#`.
fn put_text(page: &mut Page, bytes: &[u8]) {
    match str::from_utf8(bytes) {
        Ok(text) if text.len() <= 64 && bytes.iter().all(|byte| is_plain(*byte)) => {
            page.show(format_args!("\"{text}\""));
        }
        _ => {
            page.add("#");
            put_bytes(page, bytes);
        }
    }
}

/// Adds `{KEY=VALUE,KEY=VALUE}`.
fn put_texts(page: &mut Page, texts: &[TextPair]) {
    page.add("{");
    for (index, text) in texts.iter().enumerate() {
        if index > 0 {
            page.add(",");
        }
        put_text(page, text.key.as_slice());
        page.add("=");
        put_text(page, text.value.as_slice());
    }
    page.add("}");
}

/// Adds the fields in the order of their tags.
pub fn put_request_fields(page: &mut Page, request: &Request) {
    page.show(format_args!("{} {} ", request.version, request.kind));
    page.show(format_args!("{} {} ", request.message, request.id));
    put_text(page, request.servant.as_slice());
    page.add(" ");
    put_text(page, request.func.as_slice());
    page.add(" ");
    put_bytes(page, request.body.as_slice());
    page.show(format_args!(" {} ", request.timeout));
    put_texts(page, request.context.as_slice());
    page.add(" ");
    put_texts(page, request.status.as_slice());
}

/// Adds the fields in the order of their tags.
pub fn put_response_fields(page: &mut Page, response: &Response) {
    page.show(format_args!("{} {} ", response.version, response.kind));
    page.show(format_args!("{} {} ", response.id, response.message));
    page.show(format_args!("{} ", response.ret));
    put_bytes(page, response.body.as_slice());
    page.add(" ");
    put_texts(page, response.status.as_slice());
    page.add(" ");
    put_text(page, response.note.as_slice());
}

//! What comes of a row. Its words are pieces that are fed, each in hexadecimal digits, as `COUNT*BYTE` or `-` where it is empty,
//! `next` and `rest`.

use row_pages::{Page, Rows};
use tars_frames::{FrameFault, Frames, Packet};

/// Rows of streams in pieces.
pub struct FrameRows;

/// Adds bytes, or how many there are where they are many.
fn put_bytes(page: &mut Page, bytes: &[u8]) {
    match bytes.len() {
        0 => page.add("-"),
        1..=64 => page.add_hex(bytes),
        length => page.show(format_args!("{length} bytes")),
    }
}

fn put_fed(page: &mut Page, frames: &mut Frames, piece: &[u8]) {
    match frames.feed(page.alloc(), piece) {
        Ok(()) => page.add("ok"),
        Err(FrameFault::BadLength { at, length }) => page.show(format_args!("bad {at} {length}")),
        Err(FrameFault::Memory) => page.fail(),
    }
}

/// Feeds the bytes of these digits.
fn put_digits(page: &mut Page, frames: &mut Frames, digits: &str) {
    match hex::decode(page.alloc(), digits) {
        Ok(piece) => put_fed(page, frames, &piece),
        Err(_) => page.add("no piece"),
    }
}

/// Feeds a byte so many times, as one piece.
fn put_repeated(page: &mut Page, frames: &mut Frames, count: &str, byte: &str) {
    let count = count.parse::<usize>().unwrap_or(0);
    let byte = byte.parse::<u8>().unwrap_or(0);
    match Vec::from_elem(page.alloc(), byte, count) {
        Ok(piece) => put_fed(page, frames, &piece),
        Err(_) => page.fail(),
    }
}

fn put_packet(page: &mut Page, packet: Option<Packet>) {
    match packet {
        Some(packet) => put_bytes(page, packet.bytes()),
        None => page.add("none"),
    }
}

fn put_word(page: &mut Page, frames: &mut Frames, word: &str) {
    match word {
        "next" => put_packet(page, frames.next()),
        "rest" => put_bytes(page, frames.rest()),
        "-" => put_fed(page, frames, &[]),
        _ => match word.split_once('*') {
            Some((count, byte)) => put_repeated(page, frames, count, byte),
            None => put_digits(page, frames, word),
        },
    }
}

fn put_words(page: &mut Page, frames: &mut Frames, row: &str) {
    let mut first = true;
    for word in row.split(' ') {
        if !first {
            page.add("; ");
        }
        put_word(page, frames, word);
        first = false;
    }
}

impl Rows for FrameRows {
    /// A comment and an empty line are given back.
    fn put_row(page: &mut Page, row: &str) {
        if row.is_empty() || row.starts_with('#') {
            return page.add(row);
        }
        match Frames::new(page.alloc()) {
            Ok(mut frames) => put_words(page, &mut frames, row),
            Err(_) => page.fail(),
        }
    }
}

//! What comes of a row: a word, and what it is asked of.

use crate::answers::put_answers;
use crate::reading::{put_request, put_response};
use crate::writing::{put_written_request, put_written_response};
use row_pages::{Page, Rows, split_word};
use std::alloc::AllocError;

/// Rows that are asked of packets and of servants.
pub struct PacketRows;

/// Adds what comes of a row. One that asks for nothing is a comment, and is given back.
fn put_asked(page: &mut Page, row: &str) -> Result<(), AllocError> {
    let (word, text) = split_word(row);
    match word {
        "request" => put_request(page, text),
        "response" => put_response(page, text),
        "write" => put_written_request(page, text),
        "reply" => put_written_response(page, text),
        "answer" => put_answers(page, text),
        _ => Ok(page.add(row)),
    }
}

impl Rows for PacketRows {
    fn put_row(page: &mut Page, row: &str) {
        if put_asked(page, row).is_err() {
            page.fail();
        }
    }
}

//! What comes of a row: a word, and what it is asked of.

ghost use Rattle.std.specs.Prelude.{◌<◌, ◌^◌, length};

use crate::descriptors::{put_interfaces, put_members};
use crate::files::put_file;
use crate::outside::{put_copy, put_reads, put_status, put_writes};
use crate::tokens::{put_mebibyte, put_tokens_of};
use crate::walk::put_walk;
use idl_lex::LexWhy;
use row_pages::{Page, Rows, bytes_of, split_word};
use tars_wire::scan;

/// The most bytes that a row stands for.
const MOST: usize = 1 << 20;

/// `scan HEX`: whether the bytes are a body.
fn put_scan(page: &mut Page, bytes: &[u8])
    requires { length bytes.now < 2 ^ 31 }
{
    match scan(bytes) {
        Ok(_) => page.add("body"),
        Err(fault) => {
            let (why, at) = (fault.why, fault.at);
            page.show(format_args!("{why:?} at {at}"));
        }
    }
}

/// `reason WORD`: a reason's number.
fn put_reason(page: &mut Page, word: &str) {
    let why = match word {
        "BadByte" => LexWhy::BadByte,
        "OpenComment" => LexWhy::OpenComment,
        "OpenText" => LexWhy::OpenText,
        _ => LexWhy::BadNumber,
    };
    page.show(why.number());
}

/// A row that is asked of bytes.
fn put_of_bytes(page: &mut Page, word: &str, bytes: &[u8])
    requires { length bytes.now < 2 ^ 31 }
{
    match word {
        "scan" => put_scan(page, bytes),
        "walk" => put_walk(page, bytes),
        "lex" => put_tokens_of(page, bytes),
        _ => put_file(page, word, bytes),
    }
}

/// A row whose text stands for bytes.
fn put_bytes(page: &mut Page, word: &str, text: &str) {
    match bytes_of(page.alloc(), text) {
        Ok(bytes) if bytes.len() <= MOST => put_of_bytes(page, word, &bytes),
        Ok(_) => page.add("too long"),
        Err(_) => page.fail(),
    }
}

/// A row whose text stands for hexadecimal digits.
fn put_digits(page: &mut Page, word: &str, text: &str) {
    let Ok(digits) = bytes_of(page.alloc(), text) else {
        return page.fail();
    };
    match hex::decode(page.alloc(), &digits) {
        Ok(bytes) if bytes.len() <= MOST => put_of_bytes(page, word, &bytes),
        _ => page.add("no bytes"),
    }
}

/// A row that is asked of files and sinks or of descriptors; else a comment, which is given back.
fn put_plain(page: &mut Page, row: &str, word: &str, text: &str) {
    match word {
        "mebibyte" => put_mebibyte(page, text),
        "members" => put_members(page, text),
        "interfaces" => put_interfaces(page),
        "reads" => put_reads(page, text),
        "writes" => put_writes(page, text),
        "copies" => put_copy(page, text),
        "status" => put_status(page, text),
        _ => page.add(row),
    }
}

/// Rows that are asked of bytes, of interface text and of what stands outside.
pub struct LawRows;

impl Rows for LawRows {
    /// Adds what comes of a row.
    fn put_row(page: &mut Page, row: &str) {
        let (word, text) = split_word(row);
        match word {
            "scan" | "walk" => put_digits(page, word, text),
            "lex" | "parse" | "fault" | "includes" | "entries" => put_bytes(page, word, text),
            "reason" => put_reason(page, text),
            _ => put_plain(page, row, word, text),
        }
    }
}

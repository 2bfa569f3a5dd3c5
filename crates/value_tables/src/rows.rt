//! What comes of a row: a word, and what it is asked of.

use crate::arguments::put_arguments;
use crate::codec::put_codec;
use crate::schemas::{put_decode, put_default, put_value};
use crate::versions::{put_carry, put_compat};
use row_pages::{Page, Rows, split_word};

/// Rows that are asked of values and of the bodies of structs.
pub struct ValueRows;

impl Rows for ValueRows {
    /// Adds what comes of a row. One that asks for nothing is a comment, and is given back.
    fn put_row(page: &mut Page, row: &str) {
        let (word, text) = split_word(row);
        match word {
            "default" => put_default(page, text),
            "decode" => put_decode(page, text),
            "arguments" => put_arguments(page, text),
            "compat" => put_compat(page, text),
            "carry" => put_carry(page, text),
            "value" => put_value(page, text),
            "codec" => put_codec(page, text),
            _ => page.add(row),
        }
    }
}

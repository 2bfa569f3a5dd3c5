//! What files declare, and what is asked of the last struct of one.

ghost use Rattle.std.specs.Prelude.{◌<◌, ◌^◌, [], ◌∷◌, length};
ghost use Rattle.idl_lex.specs.Tokens.{Tokens as TokensOf};

use crate::structs::{Asked, put_last_struct};
use idl_check::{CheckFault, check};
use idl_lex::{Token, lex};
use idl_parse::{Ast, parse};
use row_pages::{Page, bytes_of};
use std::slice;
use tars_model::Schema;

/// The most bytes of a file.
const MOST: usize = 1 << 20;

/// Adds why a file declares no schema.
fn put_fault(page: &mut Page, fault: CheckFault) {
    match fault {
        CheckFault::Bad { at, why, .. } => {
            let number = why.number();
            page.show(format_args!("{number} at {at}"));
        }
        CheckFault::Memory => page.fail(),
    }
}

fn schema_of_tree(page: &mut Page, file: &Ast) -> Option<Schema>
    requires { length file.now.text < 2 ^ 32 }
{
    match check(page.alloc(), slice::from_ref(file)) {
        Ok(schema) => Some(schema),
        Err(fault) => {
            put_fault(page, fault);
            None
        }
    }
}

fn schema_of_tokens(page: &mut Page, text: &[u8], tokens: &[Token]) -> Option<Schema>
    requires short { length text.now < 2 ^ 32 }
    requires tokens { TokensOf text.now tokens.now }
{
    match parse(page.alloc(), "a.tars", text, tokens) {
        Ok(file) => schema_of_tree(page, &file),
        Err(_) => {
            page.add("no file");
            None
        }
    }
}

/// What a file declares. Where it is at fault, that is added.
pub fn schema_of(page: &mut Page, text: &[u8]) -> Option<Schema> {
    if text.len() > MOST {
        page.add("too long");
        return None;
    }
    match lex(page.alloc(), text) {
        Ok(tokens) => schema_of_tokens(page, text, tokens.as_slice()),
        Err(_) => {
            page.add("no tokens");
            None
        }
    }
}

/// Adds what is asked of the last struct of a file.
pub fn put_file(page: &mut Page, text: &[u8], asked: Asked<'_>) {
    if let Some(schema) = schema_of(page, text) {
        put_last_struct(page, &schema, asked);
    }
}

/// The two texts of a row that stand before and after an arrow, if there is one.
pub fn two_texts(text: &str) -> (&str, &str) {
    text.split_once(" => ").unwrap_or((text, ""))
}

/// `default FILE`: the number of the last struct that the file declares, and its default.
pub fn put_default(page: &mut Page, text: &str) {
    match bytes_of(page.alloc(), text) {
        Ok(file) => put_file(page, &file, Asked::Default),
        Err(_) => page.fail(),
    }
}

/// `decode FILE => HEX`: what a body says under the members of the last struct.
pub fn put_decode(page: &mut Page, text: &str) {
    let (file, digits) = two_texts(text);
    match hex::decode(page.alloc(), digits.as_bytes()) {
        Ok(bytes) => put_file(page, file.as_bytes(), Asked::Body(&bytes)),
        Err(_) => page.add("no bytes"),
    }
}

/// `value FILE => TEXT`: the value of the last struct that stands at the start of what the text stands for.
pub fn put_value(page: &mut Page, text: &str) {
    let (file, value) = two_texts(text);
    match bytes_of(page.alloc(), value) {
        Ok(bytes) => put_file(page, file.as_bytes(), Asked::Text(&bytes)),
        Err(_) => page.fail(),
    }
}

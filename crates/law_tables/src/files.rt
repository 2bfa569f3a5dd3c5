//! Interface files as they are parsed.

ghost use Rattle.std.specs.Prelude.{◌<◌, ◌^◌, length};
ghost use Rattle.idl_lex.specs.Tokens.{Tokens as TokensOf};

use crate::shape::put_shape;
use crate::tokens::put_lex_fault;
use idl_lex::{Token, lex};
use idl_parse::{Ast, ParseFault, parse};
use row_pages::Page;
use std::str;

/// Adds an include's name, and `-` for one that the file does not have.
fn put_include(page: &mut Page, ast: &Ast, index: usize) {
    let name = ast.include(index).unwrap_or(b"-");
    page.add(str::from_utf8(name).unwrap_or("?"));
}

/// Adds what the row's word asks of a file: the shape of its tree; nothing; its first three includes; how many
/// entries it has, and its last include.
fn put_asked(page: &mut Page, word: &str, text: &[u8], ast: &Ast) {
    match word {
        "parse" => put_shape(page, text, ast.entries()),
        "fault" => page.add("none"),
        "includes" => {
            put_include(page, ast, 0);
            page.add(" ");
            put_include(page, ast, 1);
            page.add(" ");
            put_include(page, ast, 2);
        }
        _ => {
            let count = ast.entries().len();
            page.show(format_args!("{count}, "));
            put_include(page, ast, count.saturating_sub(2));
        }
    }
}

fn put_parsed(page: &mut Page, word: &str, text: &[u8], tokens: &[Token])
    requires short { length text.now < 2 ^ 32 }
    requires tokens { TokensOf text.now tokens.now }
{
    match parse(page.alloc(), "a.tars", text, tokens) {
        Ok(ast) => put_asked(page, word, text, &ast),
        Err(ParseFault::Bad { at, why }) => page.show(format_args!("{why:?} at {at}")),
        Err(ParseFault::Memory) => page.fail(),
    }
}

/// Adds what the row's word asks of the file that a text is, or the text's fault.
pub fn put_file(page: &mut Page, word: &str, text: &[u8])
    requires { length text.now < 2 ^ 32 }
{
    match lex(page.alloc(), text) {
        Ok(tokens) => put_parsed(page, word, text, tokens.as_slice()),
        Err(fault) => put_lex_fault(page, fault),
    }
}

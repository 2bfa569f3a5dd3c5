//! The tokens of a text.

ghost use Rattle.std.specs.Prelude.{◌<◌, ◌^◌, length};

use idl_lex::{LexFault, Token, lex};
use row_pages::Page;

/// How many bytes a mebibyte has.
const MEBIBYTE: usize = 1 << 20;

/// Adds a token with its first and its last offset.
fn put_token(page: &mut Page, token: &Token) {
    let (kind, start, end) = (&token.kind, token.start, token.end);
    page.show(format_args!("{kind:?} {start}..{end}"));
}

fn put_tokens(page: &mut Page, tokens: &[Token]) {
    for (index, token) in tokens.iter().enumerate() {
        if index > 0 {
            page.add(", ");
        }
        put_token(page, token);
    }
}

pub fn put_lex_fault(page: &mut Page, fault: LexFault) {
    match fault {
        LexFault::Bad { at, why } => page.show(format_args!("{why:?} at {at}")),
        LexFault::Memory => page.fail(),
    }
}

/// `lex TEXT`: its tokens, or its fault.
pub fn put_tokens_of(page: &mut Page, text: &[u8])
    requires { length text.now < 2 ^ 32 }
{
    match lex(page.alloc(), text) {
        Ok(tokens) => put_tokens(page, tokens.as_slice()),
        Err(fault) => put_lex_fault(page, fault),
    }
}

/// Adds how many tokens a text has, and the last of them.
fn put_count(page: &mut Page, text: &[u8])
    requires { length text.now < 2 ^ 32 }
{
    match lex(page.alloc(), text) {
        Ok(tokens) => {
            let count = tokens.len();
            page.show(format_args!("{count} tokens, the last "));
            if let [.., last] = tokens.as_slice() {
                put_token(page, last);
            }
        }
        Err(fault) => put_lex_fault(page, fault),
    }
}

/// `mebibyte BYTE`: how many tokens so many times the byte have, and the last of them.
pub fn put_mebibyte(page: &mut Page, text: &str) {
    let byte = text.as_bytes().first().copied().unwrap_or(b' ');
    match vec![in page.alloc(); byte; MEBIBYTE] {
        Ok(text) => put_count(page, &text),
        Err(_) => page.fail(),
    }
}

//! A walk over a body: each field by its tag and type, with what it holds.

ghost use Rattle.std.specs.Prelude.{◌≡◌, ◌<◌, ◌^◌, length, IsSome};
ghost use Rattle.tars_wire.specs.Heads.{opens};
ghost use Rattle.tars_wire.specs.Left.{HasEntered, is_number_type, is_text_type};

use row_pages::Page;
use std::str;
use tars_wire::{Cursor, Head, WireType, scan};

/// The most fields that are shown.
const MOST_FIELDS: u32 = 100;

fn is_number(kind: WireType) -> bool
    ensures { result ≡ is_number_type kind }
{
    matches!(
        kind,
        WireType::ZeroTag | WireType::Int1 | WireType::Int2 | WireType::Int4 | WireType::Int8
    )
}

fn is_text(kind: WireType) -> bool
    ensures { result ≡ is_text_type kind }
{
    matches!(kind, WireType::String1 | WireType::String4)
}

fn is_entered(kind: WireType) -> bool
    ensures { result ≡ opens kind }
{
    matches!(kind, WireType::List | WireType::Map | WireType::StructBegin)
}

/// The next field's number, if it is one.
#[tactic(auto, using(tars_wire::proofs::CallerLemmas::next_is, tars_wire::proofs::CallerLemmas::still_entered))]
fn number(cursor: &mut Cursor<'_>) -> Option<i64>
    ensures { HasEntered cursor.old → HasEntered cursor.new }
{
    let head = cursor.head()?;
    if is_number(head.kind) {
        Some(cursor.number())
    } else {
        None
    }
}

/// The next field's string, if it is one.
#[tactic(auto, using(tars_wire::proofs::CallerLemmas::next_is, tars_wire::proofs::CallerLemmas::still_entered))]
fn text<'a>(cursor: &mut Cursor<'a>) -> Option<&'a [u8]>
    ensures { HasEntered cursor.old → HasEntered cursor.new }
{
    let head = cursor.head()?;
    if is_text(head.kind) {
        Some(cursor.text())
    } else {
        None
    }
}

/// The next field's simple list, if it is one.
#[tactic(auto, using(tars_wire::proofs::CallerLemmas::next_is, tars_wire::proofs::CallerLemmas::still_entered))]
fn simple<'a>(cursor: &mut Cursor<'a>) -> Option<&'a [u8]>
    ensures { HasEntered cursor.old → HasEntered cursor.new }
{
    let head = cursor.head()?;
    match head.kind {
        WireType::SimpleList => Some(cursor.simple()),
        _ => None,
    }
}

/// Past the next field, if there is one.
#[tactic(auto, using(tars_wire::proofs::CallerLemmas::next_is, tars_wire::proofs::CallerLemmas::still_entered))]
fn skip(cursor: &mut Cursor<'_>) -> Option<Head>
    ensures { HasEntered cursor.old → HasEntered cursor.new }
{
    let head = cursor.head()?;
    cursor.skip();
    Some(head)
}

/// Into the next field, if it is a list, a map or a struct.
#[tactic(auto, using(tars_wire::proofs::CallerLemmas::next_is))]
fn enter(cursor: &mut Cursor<'_>) -> Option<u32>
    ensures { IsSome result → HasEntered cursor.new }
{
    let head = cursor.head()?;
    if is_entered(head.kind) {
        Some(cursor.enter())
    } else {
        None
    }
}

/// Adds what the next field holds. One that is no number, text or simple list is skipped.
fn put_held(page: &mut Page, cursor: &mut Cursor<'_>)
    ensures { HasEntered cursor.old → HasEntered cursor.new }
{
    if let Some(number) = number(cursor) {
        page.show(number);
    } else if let Some(bytes) = text(cursor) {
        page.add(str::from_utf8(bytes).unwrap_or("?"));
    } else if let Some(bytes) = simple(cursor) {
        page.add_hex(bytes);
    } else {
        let _ = skip(cursor);
        page.add("skipped");
    }
}

/// Adds the next field's tag and type, or that there is none.
fn put_head(page: &mut Page, head: Option<Head>) {
    match head {
        Some(head) => {
            let (tag, kind) = (head.tag, head.kind);
            page.show(format_args!("{tag}:{kind:?}"));
        }
        None => page.add("end"),
    }
}

/// Adds the next field.
fn put_single(page: &mut Page, cursor: &mut Cursor<'_>)
    ensures { HasEntered cursor.old → HasEntered cursor.new }
{
    page.add(" ");
    put_held(page, cursor);
    page.add(", ");
}

/// Adds the first field of what was entered, and what comes after it; then it is left.
fn put_inside(page: &mut Page, cursor: &mut Cursor<'_>, size: u32)
    requires { HasEntered cursor.old }
{
    page.show(format_args!(" {size} ("));
    put_head(page, cursor.head());
    put_single(page, cursor);
    put_head(page, cursor.head());
    cursor.leave();
    page.add("), ");
}

/// Adds the next field. Of a list, a map or a struct the size and the first field.
fn put_field(page: &mut Page, cursor: &mut Cursor<'_>) {
    put_head(page, cursor.head());
    match enter(cursor) {
        Some(size) => put_inside(page, cursor, size),
        None => put_single(page, cursor),
    }
}

fn put_fields(page: &mut Page, cursor: &mut Cursor<'_>) {
    for _ in 0..MOST_FIELDS {
        if cursor.head().is_none() {
            return page.add("end");
        }
        put_field(page, cursor);
    }
}

/// `walk HEX`: each field of the body.
pub fn put_walk(page: &mut Page, bytes: &[u8])
    requires { length bytes.now < 2 ^ 31 }
{
    if let Ok(checked) = scan(bytes) {
        put_fields(page, &mut checked.cursor());
    }
}

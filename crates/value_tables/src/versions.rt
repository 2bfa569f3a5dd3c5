//! Two versions of a struct, an old one and a new one: whether they agree, and what the new one reads of what the old
//! one writes.

use crate::bodies::body_of;
use crate::schemas::{put_file, schema_of, two_texts};
use crate::structs::{Asked, MOST, last_struct, put_refused};
use bytes::BytesMut;
use row_pages::Page;
use tars_model::{Schema, Ty, Value};
use tars_versions::{Path, ReasonKind, compatible};
use value_text::read_value;

fn put_reason(page: &mut Page, reason: &Path) {
    let why = match reason.kind() {
        ReasonKind::Missing => "missing",
        ReasonKind::Mismatch => "mismatch",
    };
    put_refused(page, why, reason.steps());
}

/// Adds whether the structs of two numbers agree.
fn put_agreement(page: &mut Page, old: &Schema, old_number: u32, new: &Schema, new_number: u32) {
    // What a schema declares keeps the rules.
    let _old_order = old.order();
    let _new_order = new.order();
    let old_members = old.members_at(old_number);
    let new_members = new.members_at(new_number);
    let mut reason = Path::new();
    if compatible(old, old_members, new, new_members, &mut reason) {
        page.add("agree");
    } else {
        put_reason(page, &reason);
    }
}

fn put_last_agreement(page: &mut Page, old: &Schema, new: &Schema) {
    match (last_struct(old), last_struct(new)) {
        (Some(old_number), Some(new_number)) => {
            put_agreement(page, old, old_number, new, new_number);
        }
        _ => page.add("no struct"),
    }
}

/// Adds whether the last struct of an old schema agrees with that of a new file.
fn put_file_agreement(page: &mut Page, old: &Schema, new: &[u8]) {
    if let Some(new) = schema_of(page, new) {
        put_last_agreement(page, old, &new);
    }
}

/// `compat FILE => FILE`: whether the last struct of an old file agrees with that of a new one.
pub fn put_compat(page: &mut Page, text: &str) {
    let (old, new) = two_texts(text);
    if let Some(old) = schema_of(page, old.as_bytes()) {
        put_file_agreement(page, &old, new.as_bytes());
    }
}

/// The bytes that are written for the value of a struct that a text says.
fn written(page: &mut Page, schema: &Schema, number: u32, text: &[u8]) -> Option<BytesMut> {
    if text.len() > MOST {
        page.add("too long");
        return None;
    }
    match read_value(page.alloc(), schema, &Ty::Struct(number), text) {
        Ok((Value::Struct(values), _)) => {
            body_of(page, schema, schema.members_at(number), values.as_slice())
        }
        _ => {
            page.add("no value");
            None
        }
    }
}

/// The bytes that an old version writes.
fn written_by(page: &mut Page, file: &[u8], text: &[u8]) -> Option<BytesMut> {
    let schema = schema_of(page, file)?;
    written(page, &schema, last_struct(&schema).unwrap_or(0), text)
}

/// `carry FILE => FILE => TEXT`: the bytes that are written for a value of the last struct of an old file, and what
/// is read from them under the members of that of a new file.
pub fn put_carry(page: &mut Page, text: &str) {
    let (old, more) = two_texts(text);
    let (new, value) = two_texts(more);
    if let Some(bytes) = written_by(page, old.as_bytes(), value.as_bytes()) {
        page.add_hex(bytes.as_slice());
        page.add(" is ");
        put_file(page, new.as_bytes(), Asked::Body(bytes.as_slice()));
    }
}

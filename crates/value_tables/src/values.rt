//! Values as they are shown. Of a long text or long bytes the first part is shown.

use row_pages::Page;
use std::str;
use tars_model::Value;

/// How much is shown of a text.
const SHOWN: usize = 42;

/// Adds a text. Of a long one its first part is shown, and how many bytes it stands for.
fn put_short(page: &mut Page, text: &str, len: usize) {
    match text.split_at_checked(SHOWN) {
        Some((first, more)) if !more.is_empty() => page.show(format_args!("{first}.. of {len}")),
        _ => page.add(text),
    }
}

/// Adds bytes in hexadecimal.
pub fn put_hex(page: &mut Page, bytes: &[u8]) {
    match hex::encode_upper(page.alloc(), bytes) {
        Ok(digits) => put_short(page, &digits, bytes.len()),
        Err(_) => page.fail(),
    }
}

/// Adds a value that has no other values in it.
fn put_single(page: &mut Page, value: &Value) {
    match value {
        Value::Num(number) => page.show(*number),
        Value::Text(text) => {
            let bytes = text.as_slice();
            page.add("\"");
            put_short(page, str::from_utf8(bytes).unwrap_or("?"), bytes.len());
            page.add("\"");
        }
        Value::Blob(bytes) => {
            page.add("[");
            put_hex(page, bytes.as_slice());
            page.add("]");
        }
        _ => page.add("?"),
    }
}

fn put_value(page: &mut Page, value: &Value) {
    let Value::Map(pairs) = value else {
        return put_single(page, value);
    };
    page.add("map");
    for pair in pairs.as_slice() {
        page.add(" ");
        put_single(page, &pair.key);
        page.add("=");
        put_single(page, &pair.value);
    }
}

/// Adds values, with commas between them.
pub fn put_values(page: &mut Page, values: &[Value]) {
    for (index, value) in values.iter().enumerate() {
        if index > 0 {
            page.add(", ");
        }
        put_value(page, value);
    }
}

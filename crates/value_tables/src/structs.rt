//! Values of a struct: its default, and those that bytes or a text give.

ghost use Rattle.std.specs.Prelude.{◌≡◌, true};
ghost use Rattle.tars_model.specs.Values.{fits as fits_type};

use crate::values::put_values;
use row_pages::Page;
use std::str;
use tars_decode::{Misfit, Refuse, decode};
use tars_model::{Schema, Ty, Value, default_of, fits};
use value_text::{ValueFault, print_value, read_value};

/// The most bytes of a body or of a value's text.
pub const MOST: usize = 1 << 20;

/// What a row asks of a struct: its default, what a body says under its members, or what a text says.
#[derive(Clone, Copy)]
pub enum Asked<'a> {
    Default,
    Body(&'a [u8]),
    Text(&'a [u8]),
}

/// Adds the members of a struct's value, and whether it is one of its type.
fn put_struct_value(page: &mut Page, schema: &Schema, ty: &Ty, value: &Value) {
    match value {
        Value::Struct(values) => put_values(page, values.as_slice()),
        _ => page.add("no struct's value"),
    }
    page.add(if fits(schema, ty, value) {
        ", fits"
    } else {
        ", does not fit"
    });
}

fn put_default(page: &mut Page, schema: &Schema, number: u32) {
    page.show(format_args!("struct {number}: "));
    let ty = Ty::Struct(number);
    match default_of(page.alloc(), schema, &ty) {
        Ok(value) => put_struct_value(page, schema, &ty, &value),
        Err(_) => page.fail(),
    }
}

/// Adds a reason and the path to it.
pub fn put_refused(page: &mut Page, why: &str, path: &[u32]) {
    page.add(why);
    for step in path {
        page.add(" ");
        page.show(*step);
    }
}

pub fn put_refuse(page: &mut Page, refuse: &Refuse) {
    match refuse {
        Refuse::Malformed(fault) => {
            let (number, at) = (fault.why.number(), fault.at);
            page.show(format_args!("malformed {number} at {at}"));
        }
        Refuse::Missing { path } => put_refused(page, "missing", path.as_slice()),
        Refuse::Mismatch { path, why } => {
            let why = match why {
                Misfit::WrongType => "wrong type",
                Misfit::Range => "out of range",
                Misfit::TwiceKey => "twice",
            };
            put_refused(page, why, path.as_slice());
        }
        Refuse::Memory => page.fail(),
    }
}

/// Adds what a body says under the struct's members, or its refusal.
fn put_decoded(page: &mut Page, schema: &Schema, number: u32, bytes: &[u8]) {
    if bytes.len() > MOST {
        return page.add("too long");
    }
    // What a schema declares keeps the rules.
    let _ = schema.order();
    match decode(page.alloc(), schema, schema.members_at(number), bytes) {
        Ok(values) => put_text(page, schema, &Ty::Struct(number), &Value::Struct(values)),
        Err(refuse) => put_refuse(page, &refuse),
    }
}

/// Adds a value as it is printed.
pub fn put_text(page: &mut Page, schema: &Schema, ty: &Ty, value: &Value)
    requires { fits_type schema.now ty.now value.now ≡ true }
{
    match print_value(page.alloc(), schema, ty, value) {
        Ok(text) => page.add(str::from_utf8(&text).unwrap_or("?")),
        Err(_) => page.fail(),
    }
}

/// Adds a value as it is printed, and how many bytes its text took.
fn put_printed(page: &mut Page, schema: &Schema, ty: &Ty, value: &Value, taken: usize)
    requires { fits_type schema.now ty.now value.now ≡ true }
{
    put_text(page, schema, ty, value);
    page.show(format_args!(" of {taken}"));
}

/// Adds the value that stands at the start of a text, or its fault.
fn put_value_text(page: &mut Page, schema: &Schema, number: u32, text: &[u8]) {
    if text.len() > MOST {
        return page.add("too long");
    }
    let ty = Ty::Struct(number);
    match read_value(page.alloc(), schema, &ty, text) {
        Ok((value, taken)) => put_printed(page, schema, &ty, &value, taken),
        Err(ValueFault::Bad { at, why }) => {
            let number = why.number();
            page.show(format_args!("{number} at {at}"));
        }
        Err(ValueFault::Memory) => page.fail(),
    }
}

/// The number of the last struct, if there is one.
pub fn last_struct(schema: &Schema) -> Option<u32> {
    let count = u32::try_from(schema.structs().len()).unwrap_or(0);
    count.checked_sub(1)
}

/// Adds what is asked of the last struct.
pub fn put_last_struct(page: &mut Page, schema: &Schema, asked: Asked<'_>) {
    let Some(number) = last_struct(schema) else {
        return page.add("no struct");
    };
    match asked {
        Asked::Default => put_default(page, schema, number),
        Asked::Body(bytes) => put_decoded(page, schema, number, bytes),
        Asked::Text(text) => put_value_text(page, schema, number, text),
    }
}

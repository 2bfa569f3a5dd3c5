//! The arguments of a call, read from the body of its request.

use crate::bodies::{defaults_fit, tags_rise};
use crate::schemas::{schema_of, two_texts};
use crate::structs::{MOST, put_refuse, put_text};
use row_pages::Page;
use std::str;
use tars_decode::decode;
use tars_model::{FuncDesc, Member, Schema, Value, args_of, fits};

/// The most parameters of a function.
const MAX_PARAMS: usize = 64;

/// Adds an argument by the name of its parameter.
fn put_argument(page: &mut Page, schema: &Schema, member: &Member, value: &Value) {
    page.add(str::from_utf8(member.name.as_slice()).unwrap_or("?"));
    page.add("=");
    if fits(schema, &member.ty, value) {
        put_text(page, schema, &member.ty, value);
    } else {
        page.add("?");
    }
}

fn put_values(page: &mut Page, schema: &Schema, members: &[Member], values: &[Value]) {
    page.add("(");
    for (index, (member, value)) in members.iter().zip(values).enumerate() {
        if index > 0 {
            page.add(", ");
        }
        put_argument(page, schema, member, value);
    }
    page.add(")");
}

/// Adds the arguments that a body says, or its refusal.
fn put_read(page: &mut Page, schema: &Schema, members: &[Member], body: &[u8]) {
    if body.len() > MOST || !tags_rise(members) || !defaults_fit(schema, members) {
        return page.add("not read");
    }
    match decode(page.alloc(), schema, members, body) {
        Ok(values) => put_values(page, schema, members, values.as_slice()),
        Err(refuse) => put_refuse(page, &refuse),
    }
}

fn put_call(page: &mut Page, schema: &Schema, func: &FuncDesc, body: &[u8]) {
    if func.params.as_slice().len() > MAX_PARAMS {
        return page.add("too many");
    }
    match args_of(page.alloc(), func) {
        Ok(members) => put_read(page, schema, members.as_slice(), body),
        Err(_) => page.fail(),
    }
}

/// The first function of the last interface.
fn first_func(schema: &Schema) -> Option<&FuncDesc> {
    let interface = schema.interfaces().last()?;
    interface.funcs.as_slice().first()
}

fn put_of_schema(page: &mut Page, schema: &Schema, body: &[u8]) {
    match first_func(schema) {
        Some(func) => put_call(page, schema, func, body),
        None => page.add("no function"),
    }
}

/// Adds what a body says as the arguments of a file's function.
fn put_of_file(page: &mut Page, file: &[u8], body: &[u8]) {
    if let Some(schema) = schema_of(page, file) {
        put_of_schema(page, &schema, body);
    }
}

/// `arguments FILE => HEX`: what a body says as the arguments of the first function of the file's last interface.
pub fn put_arguments(page: &mut Page, text: &str) {
    let (file, digits) = two_texts(text);
    match hex::decode(page.alloc(), digits.as_bytes()) {
        Ok(bytes) => put_of_file(page, file.as_bytes(), &bytes),
        Err(_) => page.add("no bytes"),
    }
}

//! Fields as a row has them.

use crate::bodies::put_coded;
use row_pages::{Page, bytes_of, split_word};
use std::alloc::{AllocError, Global};
use tars_model::{Boxed, Bytes8, List, Member, Name, Pair, Ty, Value};

/// `map<string, string>`
fn texts_type(alloc: Global) -> Result<Ty, AllocError> {
    let key = Boxed::new(alloc, Ty::Text)?;
    Ok(Ty::Map(key, Boxed::new(alloc, Ty::Text)?))
}

/// The type that a word stands for; `int` for another word.
fn type_of(alloc: Global, word: &str) -> Result<Ty, AllocError> {
    match word {
        "byte" => Ok(Ty::Byte),
        "short" => Ok(Ty::Short),
        "long" => Ok(Ty::Long),
        "ubyte" => Ok(Ty::UByte),
        "ushort" => Ok(Ty::UShort),
        "uint" => Ok(Ty::UInt),
        "string" => Ok(Ty::Text),
        "bytes" => Ok(Ty::Vector(Boxed::new(alloc, Ty::Byte)?)),
        "map" => texts_type(alloc),
        _ => Ok(Ty::Int),
    }
}

fn text_value(alloc: Global, text: &str) -> Result<Value, AllocError> {
    Ok(Value::Text(Bytes8::from_slice(alloc, text.as_bytes())?))
}

/// The bytes of hexadecimal digits; none where they are no such digits.
fn blob_value(alloc: Global, digits: &[u8]) -> Value {
    let bytes = hex::decode(alloc, digits).unwrap_or(Vec::new(alloc));
    Value::Blob(Bytes8::from_vec(bytes))
}

/// `KEY=VALUE`
fn pair_of(alloc: Global, text: &str) -> Result<Pair, AllocError> {
    let (key, value) = text.split_once('=').unwrap_or((text, ""));
    let key = text_value(alloc, key)?;
    let value = text_value(alloc, value)?;
    Ok(Pair { key, value })
}

/// `KEY=VALUE KEY=VALUE ..`
fn map_value(alloc: Global, text: &str) -> Result<Value, AllocError> {
    let mut pairs = List::new(alloc);
    for pair in text.split(' ') {
        if !pair.is_empty() {
            pairs.push(pair_of(alloc, pair)?)?;
        }
    }
    Ok(Value::Map(pairs))
}

/// The value that a text stands for, by the word of its type.
fn value_of(alloc: Global, word: &str, text: &str) -> Result<Value, AllocError> {
    match word {
        "string" => Ok(Value::Text(Bytes8::from_vec(bytes_of(alloc, text)?))),
        "bytes" => Ok(blob_value(alloc, &bytes_of(alloc, text)?)),
        "map" => map_value(alloc, text),
        _ => Ok(Value::Num(text.parse::<i64>().unwrap_or(0))),
    }
}

/// A member without a name, by the word of its type.
fn member(alloc: Global, tag: u8, word: &str) -> Result<Member, AllocError> {
    let name = Name::from_slice(alloc, b"")?;
    let ty = type_of(alloc, word)?;
    Ok(Member {
        tag,
        require: true,
        ty,
        name,
        default: Value::Num(0),
    })
}

/// `TAG TYPE VALUE`: adds the member and its value.
fn add_field(
    alloc: Global,
    members: &mut List<Member>,
    values: &mut List<Value>,
    text: &str,
) -> Result<(), AllocError> {
    let (tag, text) = split_word(text);
    let (word, text) = split_word(text);
    let tag = tag.parse::<u8>().unwrap_or(0);
    members.push(member(alloc, tag, word)?)?;
    values.push(value_of(alloc, word, text)?)
}

/// Adds the members and the values of all fields.
fn add_fields(
    alloc: Global,
    members: &mut List<Member>,
    values: &mut List<Value>,
    text: &str,
) -> Result<(), AllocError> {
    for field in text.split(", ") {
        add_field(alloc, members, values, field)?;
    }
    Ok(())
}

/// `codec TAG TYPE VALUE, ..`: the bytes that spell the fields, and the values that are read from these.
pub fn put_codec(page: &mut Page, text: &str) {
    let mut members = List::new(page.alloc());
    let mut values = List::new(page.alloc());
    match add_fields(page.alloc(), &mut members, &mut values, text) {
        Ok(()) => put_coded(page, members.as_slice(), values.as_slice()),
        Err(_) => page.fail(),
    }
}

//! Values once more.

ghost use Rattle.std.specs.Prelude.{◌≡◌, IfOk};

use crate::{Bytes8, List, Pair, Value};
use std::alloc::{AllocError, Global};

#[cycle(copy)]
fn copy_values(alloc: Global, values: &[Value]) -> Result<List<Value>, AllocError>
    ensures { IfOk result (λ copies. copies ≡ values.now) }
{
    let mut copies = List::new(alloc);
    for value in values {
        copies.push(copy_value(alloc, value)?)?;
    }
    Ok(copies)
}

#[cycle(copy)]
fn copy_pair(alloc: Global, pair: &Pair) -> Result<Pair, AllocError>
    ensures { IfOk result (λ copy. copy ≡ pair.now) }
{
    let key = copy_value(alloc, &pair.key)?;
    let value = copy_value(alloc, &pair.value)?;
    Ok(Pair { key, value })
}

#[cycle(copy)]
fn copy_pairs(alloc: Global, pairs: &[Pair]) -> Result<List<Pair>, AllocError>
    ensures { IfOk result (λ copies. copies ≡ pairs.now) }
{
    let mut copies = List::new(alloc);
    for pair in pairs {
        copies.push(copy_pair(alloc, pair)?)?;
    }
    Ok(copies)
}

/// The same value once more.
#[cycle(copy)]
pub fn copy_value(alloc: Global, value: &Value) -> Result<Value, AllocError>
    ensures { IfOk result (λ copy. copy ≡ value.now) }
{
    Ok(match value {
        Value::Bool(value) => Value::Bool(*value),
        Value::Num(number) => Value::Num(*number),
        Value::Text(text) => Value::Text(Bytes8::from_slice(alloc, text.as_slice())?),
        Value::Blob(bytes) => Value::Blob(Bytes8::from_slice(alloc, bytes.as_slice())?),
        Value::List(values) => Value::List(copy_values(alloc, values.as_slice())?),
        Value::Map(pairs) => Value::Map(copy_pairs(alloc, pairs.as_slice())?),
        Value::Struct(values) => Value::Struct(copy_values(alloc, values.as_slice())?),
    })
}

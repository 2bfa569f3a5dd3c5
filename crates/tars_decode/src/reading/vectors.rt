//! Elements as a vector.

ghost use Rattle.std.specs.Prelude.{◌≡◌, IfOk, map};
ghost use Rattle.tars_model.specs.Values.{is_byte};
ghost use Rattle.tars_model.specs.declared.ty.Ty.{out-Ty};
ghost use Rattle.tars_model.specs.declared.value.Value.{out-Value};
ghost use Rattle.tars_decode.specs.Reads.{byte_of, vector_of};

use std::alloc::{AllocError, Global};
use tars_model::{Bytes8, List, Ty, Value};

pub fn is_byte(ty: &Ty) -> bool
    ensures { result ≡ is_byte (out-Ty ty.now) }
{
    matches!(ty, Ty::Byte)
}

/// The byte of a number from -128 to 127.
fn byte_of(value: &Value) -> u8
    ensures { result ≡ byte_of (out-Value value.now) }
{
    match value {
        Value::Num(number) => match i8::try_from(*number) {
            Ok(number) => number.cast_unsigned(),
            Err(_) => 0,
        },
        _ => 0,
    }
}

fn bytes_of(alloc: Global, values: &[Value]) -> Result<Bytes8, AllocError>
    ensures { IfOk result (λ bytes. bytes ≡ map (λ v. byte_of (out-Value v)) values.now) }
{
    let mut bytes = Vec::new(alloc);
    for value in values {
        bytes.push(byte_of(value))?;
    }
    Ok(Bytes8::from_vec(bytes))
}

/// Elements that were read one by one, as a value of the vector's type.
pub fn vector_of(alloc: Global, of: &Ty, values: List<Value>) -> Result<Value, AllocError>
    ensures { IfOk result (λ vector. vector ≡ vector_of of.now values) }
{
    if is_byte(of) {
        return Ok(Value::Blob(bytes_of(alloc, values.as_slice())?));
    }
    Ok(Value::List(values))
}

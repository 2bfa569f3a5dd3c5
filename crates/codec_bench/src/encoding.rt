ghost use Rattle.std.specs.Prelude.{◌≡◌, ◌<◌, ◌^◌, true, length, IfOk, IfSome};
ghost use Rattle.codec_bench.specs.Bench.{SaysValues, EncodesTo, Leaves};
ghost use Rattle.tars_codec.specs.Written.{written};
ghost use Rattle.tars_model.specs.Declarations.{members_at};
ghost use Rattle.tars_model.specs.Values.{fit_members};

use crate::leaving::leave;
use crate::opening::{Opened, open};
use bytes::BytesMut;
use std::alloc::{AllocError, Global};
use tars_codec::encode;
use tars_model::{List, Schema, Ty, Value};
use value_text::read_whole;

/// The values of the members of a struct, which a text says.
fn values_of(alloc: Global, schema: &Schema, number: u32, text: &[u8]) -> Option<List<Value>>
    requires { length text.now < 2 ^ 32 }
    ensures says { IfSome result (λ values. SaysValues schema.now number text.now values) }
    ensures fits { IfSome result (λ values. fit_members schema.now (members_at schema.now number) values ≡ true) }
{
    let Ok(value) = read_whole(alloc, schema, &Ty::Struct(number), text) else {
        return None;
    };
    match value {
        Value::Struct(values) => Some(values),
        _ => None,
    }
}

/// The body that spells the values of a struct.
fn body_of(
    alloc: Global,
    schema: &Schema,
    number: u32,
    values: &[Value],
) -> Result<BytesMut, AllocError>
    requires { fit_members schema.now (members_at schema.now number) values.now ≡ true }
    ensures { IfOk result (λ body. body.items ≡ written schema.now (members_at schema.now number) values.now) }
{
    // In a schema the tags of members rise.
    let _ = schema.order();
    let mut body = BytesMut::new(alloc);
    encode(schema, schema.members_at(number), values, &mut body)?;
    Ok(body)
}

/// The same, encoded so many times.
fn last_body(
    alloc: Global,
    schema: &Schema,
    number: u32,
    values: &[Value],
    times: u32,
) -> Result<BytesMut, AllocError>
    requires { fit_members schema.now (members_at schema.now number) values.now ≡ true }
    ensures { IfOk result (λ body. body.items ≡ written schema.now (members_at schema.now number) values.now) }
{
    for _ in 1..times {
        let _ = body_of(alloc, schema, number, values)?;
    }
    body_of(alloc, schema, number, values)
}

fn encoded(alloc: Global, interface: &[u8], text: &[u8], times: u32) -> Option<BytesMut>
    requires { length text.now < 2 ^ 32 }
    ensures { IfSome result (λ body. EncodesTo interface.now text.now body.items) }
{
    let Opened { schema, number } = open(alloc, interface)?;
    let values = values_of(alloc, &schema, number, text)?;
    last_body(alloc, &schema, number, values.as_slice(), times).ok()
}

/// Encodes the values of the last struct so many times, at least once, and leaves the body in `out`. Returns its length,
/// or 0 where a text is refused, `out` is too short, or memory runs out.
#[unsafe(no_mangle)]
pub extern "C" fn codec_bench_encode(
    alloc: Global,
    interface: &[u8],
    text: &[u8],
    times: u32,
    out: &mut [u8],
) -> usize
    requires { length text.now < 2 ^ 32 }
    ensures { Leaves (EncodesTo interface.now text.now) result out.new }
{
    match encoded(alloc, interface, text, times) {
        Some(body) => leave(out, body.as_slice()),
        None => 0,
    }
}

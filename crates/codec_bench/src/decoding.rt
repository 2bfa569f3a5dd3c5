ghost use Rattle.std.specs.Prelude.{◌≡◌, ◌<◌, ◌^◌, true, length, IfOk, IfSome};
ghost use Rattle.codec_bench.specs.Bench.{ReadsValues, DecodesTo, Leaves};
ghost use Rattle.tars_model.specs.Declarations.{members_at};
ghost use Rattle.tars_model.specs.Values.{fit_members};
ghost use Rattle.tars_model.specs.declared.ty.Ty.TheVariants as Kind;
ghost use Rattle.tars_model.specs.declared.value.Value.TheVariants as Made;
ghost use Rattle.value_text.specs.Printed.{printed};

use crate::leaving::leave;
use crate::opening::{Opened, open};
use std::alloc::{AllocError, Global};
use tars_codec::decode;
use tars_model::{List, Schema, Ty, Value};
use value_text::print_value;

/// The values of the members of a struct, from a body.
fn values_of(alloc: Global, schema: &Schema, number: u32, body: &[u8]) -> Option<List<Value>>
    requires { length body.now < 2 ^ 32 }
    ensures reads { IfSome result (λ values. ReadsValues schema.now number body.now values) }
    ensures fits { IfSome result (λ values. fit_members schema.now (members_at schema.now number) values ≡ true) }
{
    // In a schema the tags of members rise, and their defaults are of their types.
    let _ = schema.order();
    match decode(alloc, schema, schema.members_at(number), body) {
        Ok(values) => Some(values),
        Err(_) => None,
    }
}

/// The same, decoded so many times.
fn last_values(
    alloc: Global,
    schema: &Schema,
    number: u32,
    body: &[u8],
    times: u32,
) -> Option<List<Value>>
    requires { length body.now < 2 ^ 32 }
    ensures reads { IfSome result (λ values. ReadsValues schema.now number body.now values) }
    ensures fits { IfSome result (λ values. fit_members schema.now (members_at schema.now number) values ≡ true) }
{
    for _ in 1..times {
        let _ = values_of(alloc, schema, number, body)?;
    }
    values_of(alloc, schema, number, body)
}

/// The printed text of a struct's values.
fn text_of(
    alloc: Global,
    schema: &Schema,
    number: u32,
    values: List<Value>,
) -> Result<Vec<u8>, AllocError>
    requires { fit_members schema.now (members_at schema.now number) values ≡ true }
    ensures { IfOk result (λ text. text.items ≡ printed schema.now (Kind.Struct number) (Made.Struct values)) }
{
    print_value(alloc, schema, &Ty::Struct(number), &Value::Struct(values))
}

fn decoded(alloc: Global, interface: &[u8], body: &[u8], times: u32) -> Option<Vec<u8>>
    requires { length body.now < 2 ^ 32 }
    ensures { IfSome result (λ text. DecodesTo interface.now body.now text.items) }
{
    let Opened { schema, number } = open(alloc, interface)?;
    let values = last_values(alloc, &schema, number, body, times)?;
    text_of(alloc, &schema, number, values).ok()
}

/// Decodes a body as the last struct so many times, at least once, and leaves the printed text of its values in `out`.
/// Returns the text's length, or 0 where the interface or the body is refused, `out` is too short, or memory runs out.
#[unsafe(no_mangle)]
pub extern "C" fn codec_bench_decode(
    alloc: Global,
    interface: &[u8],
    body: &[u8],
    times: u32,
    out: &mut [u8],
) -> usize
    requires { length body.now < 2 ^ 32 }
    ensures { Leaves (DecodesTo interface.now body.now) result out.new }
{
    match decoded(alloc, interface, body, times) {
        Some(text) => leave(out, &text),
        None => 0,
    }
}

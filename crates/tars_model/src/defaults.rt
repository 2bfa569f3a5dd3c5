ghost use Rattle.std.specs.Prelude.{◌≡◌, IfOk, map};
ghost use Rattle.tars_model.specs.Declarations.{items_at};
ghost use Rattle.tars_model.specs.Values.{first_number, defaults_of, default_of};

use crate::copying::copy_value;
use crate::{Bytes8, Item, List, Member, Schema, Ty, Value};
use std::alloc::{AllocError, Global};

/// The number of the first enumerator, or 0: the default of an enum.
pub fn first_number(items: &[Item]) -> i32
    ensures { result ≡ first_number items.now }
{
    match items {
        [first, ..] => first.number,
        [] => 0,
    }
}

/// The defaults of members.
fn defaults_of(alloc: Global, members: &[Member]) -> Result<List<Value>, AllocError>
    ensures { IfOk result (λ defaults. defaults ≡ defaults_of members.now) }
{
    let mut defaults = List::new(alloc);
    for member in members {
        defaults.push(copy_value(alloc, &member.default)?)?;
    }
    Ok(defaults)
}

/// The default of a type: 0, false, nothing, the first enumerator, or the defaults of a struct's members.
pub fn default_of(alloc: Global, schema: &Schema, ty: &Ty) -> Result<Value, AllocError>
    ensures { IfOk result (λ value. value ≡ default_of schema.now ty.now) }
{
    match ty {
        Ty::Bool => Ok(Value::Bool(false)),
        Ty::Text => Ok(Value::Text(Bytes8::from_vec(Vec::new(alloc)))),
        Ty::Enum(number) => Ok(Value::Num(i64::from(first_number(schema.items_at(*number))))),
        Ty::Struct(number) => Ok(Value::Struct(defaults_of(alloc, schema.members_at(*number))?)),
        Ty::Vector(of) => match of.get() {
            Ty::Byte => Ok(Value::Blob(Bytes8::from_vec(Vec::new(alloc)))),
            _ => Ok(Value::List(List::new(alloc))),
        },
        Ty::Map(_, _) => Ok(Value::Map(List::new(alloc))),
        _ => Ok(Value::Num(0)),
    }
}

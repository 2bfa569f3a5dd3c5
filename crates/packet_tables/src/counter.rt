ghost use Rattle.std.specs.Prelude.{◌≡◌, ◌<◌, length, slice_get, IfOk};
ghost use Rattle.packet_tables.specs.Servants.{SuitsAt, counted, counted_by};
ghost use Rattle.servant_core.specs.Functions.{functions_of};

use crate::interfaces::func_at;
use servant_core::{Reply, Servant};
use std::alloc::{AllocError, Global};
use std::marker::Model;
use tars_model::{List, Member, Schema, Value, fits, reply_of};

/// The return code of an unknown error.
const UNKNOWN: i32 = -99;

/// A servant that replies how many calls it handled, this one too, where the function replies nothing but a number that says it, and
/// else the code -99.
#[derive(Drop)]
pub struct Counter {
    schema: Schema,
    interface: u32,
    handled: u32,
}

impl Model for Counter {
    ghost use Rattle.std.specs.Prelude.{◌<◌, length};
    ghost use Rattle.std.specs.Coded.{codes};
    ghost use Rattle.packet_tables.specs.Servants.{Counting};
    ghost use Rattle.tars_model.specs.contracts.ty.Ty as ty;
    ghost use Rattle.tars_model.specs.contracts.value.Value as value;

    ghost Value = { Counting };

    ghost coded = { Prim.hlevel (codes, ty.the_row.coded, value.the_row.coded) };

    ghost view = { λ c. record { schema = c.schema; interface = c.interface; handled = c.handled } };

    ghost invariant = { λ c. c.interface < length c.schema.interfaces };
}

/// A number as the one value of a reply.
fn counted(
    alloc: Global,
    schema: &Schema,
    members: &[Member],
    number: u32,
) -> Result<Reply, AllocError>
    ensures { IfOk result (λ reply. reply ≡ counted schema.now members.now number) }
{
    let [member] = members else {
        return Ok(Reply::Code(UNKNOWN));
    };
    let number = Value::Num(i64::from(number));
    if !fits(schema, &member.ty, &number) {
        return Ok(Reply::Code(UNKNOWN));
    }
    let mut values = List::new(alloc);
    values.push(number)?;
    Ok(Reply::Values(values))
}

impl Counter {
    /// A servant of the interface of this number.
    pub fn new(schema: Schema, interface: u32) -> Counter
        requires { interface < length schema.interfaces }
        ensures { SuitsAt schema interface (⟦<Counter as Servant>⟧.meaning result) }
    {
        Counter {
            schema,
            interface,
            handled: 0,
        }
    }

    /// A number as the reply of a function.
    fn counted_by(&self, alloc: Global, func: u32, number: u32) -> Result<Reply, AllocError>
        ensures { IfOk result (λ reply. reply ≡ counted_by self.now.schema (slice_get (functions_of self.now.schema self.now.interface) func) number) }
    {
        let Some(func) = func_at(&self.schema, self.interface, func) else {
            return Ok(Reply::Code(UNKNOWN));
        };
        let members = reply_of(alloc, func)?;
        counted(alloc, &self.schema, members.as_slice(), number)
    }
}

impl Servant for Counter {
    ghost use Rattle.std.specs.Prelude.{◌+◌, length, slice_get};
    ghost use Rattle.packet_tables.specs.Servants.{counted_by, one_more};
    ghost use Rattle.servant_core.specs.Functions.{functions_of};

    ghost meaning = { λ c earlier last. counted_by c.schema (slice_get (functions_of c.schema c.interface) last.func) (one_more (c.handled + length earlier)) };

    fn reply(
        &mut self,
        alloc: Global,
        func: u32,
        _: &[Value],
        _: u32,
    ) -> Result<Reply, AllocError> {
        self.handled = self.handled.saturating_add(1);
        self.counted_by(alloc, func, self.handled)
    }
}

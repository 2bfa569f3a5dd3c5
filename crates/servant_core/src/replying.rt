//! Replies by rules.

ghost use Rattle.std.specs.Prelude.{◌≡◌, ◌++◌, ◌+ℤ◌, true, IfOk, IfSome, IsNone, OnOk};
ghost use Rattle.tars_model.specs.Values.{fits};
ghost use Rattle.tars_model.specs.declared.value.Value.{Num as ANum};
ghost use Rattle.servant_core.specs.Rules.{out_defaults, returning, returning_default, returning_sum, argument, summand, reply_by};

use crate::{Reply, Rule};
use std::alloc::{AllocError, Global};
use tars_model::{FuncDesc, List, Param, Schema, Ty, Value, copy_value, default_of, fits};

/// The return code of an unknown error.
pub(crate) const UNKNOWN: i32 = -99;

/// Adds the defaults of the parameters that come back.
fn add_defaults(
    alloc: Global,
    schema: &Schema,
    params: &[Param],
    values: &mut List<Value>,
) -> Result<(), AllocError>
    ensures { OnOk result (values.new ≡ values.old ++ out_defaults schema.now params.now) }
{
    for param in params {
        if param.out {
            values.push(default_of(alloc, schema, &param.ty)?)?;
        }
    }
    Ok(())
}

/// This is returned.
fn returning(
    alloc: Global,
    schema: &Schema,
    func: &FuncDesc,
    value: Value,
) -> Result<Reply, AllocError>
    ensures { IfOk result (λ reply. reply ≡ returning schema.now func.now value) }
{
    let mut values = List::new(alloc);
    values.push(value)?;
    add_defaults(alloc, schema, func.params.as_slice(), &mut values)?;
    Ok(Reply::Values(values))
}

/// The default is returned.
fn returning_default(alloc: Global, schema: &Schema, func: &FuncDesc) -> Result<Reply, AllocError>
    ensures { IfOk result (λ reply. reply ≡ returning_default schema.now func.now func.now.ret) }
{
    match &func.ret {
        Some(ty) => returning(alloc, schema, func, default_of(alloc, schema, ty)?),
        None => {
            let mut values = List::new(alloc);
            add_defaults(alloc, schema, func.params.as_slice(), &mut values)?;
            Ok(Reply::Values(values))
        }
    }
}

/// The argument at a place.
fn argument(alloc: Global, args: &[Value], place: u32) -> Result<Value, AllocError>
    ensures { IfOk result (λ value. value ≡ argument args.now place) }
{
    match args.get(place as usize) {
        Some(value) => copy_value(alloc, value),
        None => Ok(Value::Num(0)),
    }
}

/// The number at a place among the arguments.
fn summand(args: &[Value], place: u32) -> i64
    ensures { result ≡ summand args.now place }
{
    match args.get(place as usize) {
        Some(Value::Num(number)) => *number,
        _ => 0,
    }
}

/// The exact sum, where it is one of the type's numbers.
fn sum_of(schema: &Schema, ty: &Ty, first: i64, second: i64) -> Option<i64>
    ensures some { IfSome result (λ sum. (sum ≡ first +ℤ second) × (fits schema.now ty.now (ANum sum) ≡ true)) }
    ensures none { IsNone result → fits schema.now ty.now (ANum (first +ℤ second)) ≡ true → ⊥ }
{
    let sum = first.checked_add(second)?;
    if fits(schema, ty, &Value::Num(sum)) {
        Some(sum)
    } else {
        None
    }
}

/// The sum is returned.
fn returning_sum(
    alloc: Global,
    schema: &Schema,
    func: &FuncDesc,
    first: i64,
    second: i64,
) -> Result<Reply, AllocError>
    ensures { IfOk result (λ reply. reply ≡ returning_sum schema.now func.now func.now.ret (first +ℤ second)) }
{
    let Some(ty) = &func.ret else {
        return Ok(Reply::Code(UNKNOWN));
    };
    match sum_of(schema, ty, first, second) {
        Some(sum) => returning(alloc, schema, func, Value::Num(sum)),
        None => Ok(Reply::Code(UNKNOWN)),
    }
}

/// The reply by a rule, or without one.
pub(crate) fn reply_by(
    alloc: Global,
    schema: &Schema,
    func: &FuncDesc,
    rule: &Option<Rule>,
    args: &[Value],
) -> Result<Reply, AllocError>
    ensures { IfOk result (λ reply. reply ≡ reply_by schema.now func.now rule.now args.now) }
{
    match rule {
        None => returning_default(alloc, schema, func),
        Some(Rule::Value(value)) => returning(alloc, schema, func, copy_value(alloc, value)?),
        Some(Rule::Echo(place)) => returning(alloc, schema, func, argument(alloc, args, *place)?),
        Some(Rule::Add(first, second)) => {
            let first = summand(args, *first);
            let second = summand(args, *second);
            returning_sum(alloc, schema, func, first, second)
        }
        Some(Rule::Code(code)) => Ok(Reply::Code(*code)),
        Some(Rule::Silent) => Ok(Reply::Silent),
    }
}

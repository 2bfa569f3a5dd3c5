//! The arguments of a call.

ghost use Rattle.std.specs.Prelude.{◌≡◌, ◌<◌, ◌≤◌, ◌^◌, true, length, List as Listed, ℕ, IfOk, OnOk};
ghost use Rattle.tars_model.specs.Values.{fits, fit_members};
ghost use Rattle.tars_model.specs.declared.value.Value.{Value as Made};
ghost use Rattle.value_text.specs.Spelling.{Spells};
ghost use Rattle.std.specs.List.{list_all};
ghost use Rattle.value_text.specs.Printed.{has_bytes};
ghost use Rattle.script_values.specs.Args.{past_spaces, IsApart, SaysArgs};
ghost use Rattle.script_values.specs.Outcomes.{Gives, GivesNext};

use crate::ArgsFault;
use std::alloc::Global;
use tars_model::{List, Member, Schema, Ty, Value};
use value_text::{one_value, read_value};

/// What stands after any spaces.
fn past_spaces(text: &[u8]) -> &[u8]
    ensures after { result.now ≡ past_spaces text.now }
    ensures shorter { length result.now ≤ length text.now }
{
    let mut rest = text;
    while let [b' ', after @ ..] = rest {
        rest = after;
    }
    rest
}

fn is_apart(rest: &[u8]) -> bool
    ensures yes { result ≡ true → IsApart rest.now }
    ensures no { IsApart rest.now → result ≡ true }
{
    matches!(rest, [] | [b' ', ..])
}

/// The value that comes next, and what stands after it.
fn next_arg<'a>(
    alloc: Global,
    schema: &Schema,
    ty: &Ty,
    text: &'a [u8],
) -> Result<(Value, &'a [u8]), ArgsFault>
    requires { length text.now < 2 ^ 32 }
    ensures spells { IfOk result (λ x. Spells schema.now ty.now x.0 (past_spaces text.now) x.1.now) }
    ensures apart { IfOk result (λ x. IsApart x.1.now) }
    ensures fits { IfOk result (λ x. fits schema.now ty.now x.0 ≡ true) }
    ensures bytes { IfOk result (λ x. has_bytes x.0 ≡ true) }
    ensures shorter { IfOk result (λ x. length x.1.now ≤ length text.now) }
    ensures only { (v : Made) (rest : Listed ℕ) → Spells schema.now ty.now v (past_spaces text.now) rest → IsApart rest
        → GivesNext (λ r. r.now) result v rest }
{
    // A text begins with one value at most.
    one_value();
    let text = past_spaces(text);
    let (value, taken) = read_value(alloc, schema, ty, text)?;
    let rest = &text[taken..];
    if is_apart(rest) {
        Ok((value, rest))
    } else {
        Err(ArgsFault::Bad)
    }
}

/// The values of a call's arguments, one for each member, as a text says them.
pub fn read_args(
    alloc: Global,
    schema: &Schema,
    members: &[Member],
    text: &[u8],
) -> Result<List<Value>, ArgsFault>
    requires { length text.now < 2 ^ 32 }
    // The text says what is read.
    ensures says { IfOk result (λ values. SaysArgs schema.now members.now values text.now) }
    ensures fits { IfOk result (λ values. fit_members schema.now members.now values ≡ true) }
    ensures bytes { IfOk result (λ values. list_all has_bytes values ≡ true) }
    // Whatever a text says is read, unless memory runs out: so it is bad only where it says no arguments.
    ensures only { (values : Listed Made) → SaysArgs schema.now members.now values text.now → Gives result values }
{
    one_value();
    let mut values = List::new(alloc);
    let mut rest = text;
    for member in members {
        let (value, after) = next_arg(alloc, schema, &member.ty, rest)?;
        values.push(value)?;
        rest = after;
    }
    if !past_spaces(rest).is_empty() {
        return Err(ArgsFault::Bad);
    }
    Ok(values)
}

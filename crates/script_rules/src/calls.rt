//! The arguments of calls.

ghost use Rattle.std.specs.Prelude.{◌≡◌, ◌≤◌, true, length, List as Listed, IfOk};
ghost use Rattle.std.specs.List.{list_all};
ghost use Rattle.script_lines.specs.TextLimits.{MAX_LINE};
ghost use Rattle.script_rules.specs.Functions.{AreParams};
ghost use Rattle.script_values.specs.Args.{SaysArgs};
ghost use Rattle.script_values.specs.Outcomes.{Gives};
ghost use Rattle.tars_model.specs.Members.{arguments_of};
ghost use Rattle.tars_model.specs.Values.{fit_members};
ghost use Rattle.tars_model.specs.declared.value.Value.{Value as Said};
ghost use Rattle.value_text.specs.Printed.{has_bytes};

use script_values::{ArgsFault, read_args};
use std::alloc::Global;
use tars_model::{FuncDesc, List, Schema, Value, args_of};

/// The arguments of a call of a function, one for each parameter that is not `out`, as a text of a script says them.
pub fn read_call(
    alloc: Global,
    schema: &Schema,
    func: &FuncDesc,
    text: &[u8],
) -> Result<List<Value>, ArgsFault>
    requires params { AreParams func.now.params }
    requires short { length text.now ≤ MAX_LINE }
    // The text says what is read.
    ensures says { IfOk result (λ values. SaysArgs schema.now (arguments_of func.now) values text.now) }
    ensures fits { IfOk result (λ values. fit_members schema.now (arguments_of func.now) values ≡ true) }
    ensures bytes { IfOk result (λ values. list_all has_bytes values ≡ true) }
    // Whatever a text says is read, unless memory runs out: so it is bad only where it says no arguments.
    ensures only { (values : Listed Said) → SaysArgs schema.now (arguments_of func.now) values text.now → Gives result values }
{
    let members = args_of(alloc, func)?;
    read_args(alloc, schema, members.as_slice(), text)
}

//! The interfaces of rows.

ghost use Rattle.std.specs.Prelude.{◌≡◌, ◌<◌, length, slice_get, option_copied, IfSome};
ghost use Rattle.script_rules.specs.Functions.{AreParams};
ghost use Rattle.servant_core.specs.Functions.{functions_of};

use idl_check::check;
use idl_load::read_tree;
use script_rules::lines_are_judged;
use std::alloc::Global;
use std::slice;
use tars_model::{FuncDesc, Schema};

/// What an interface file declares, and the number of its last interface.
#[derive(Drop)]
pub struct Opened {
    pub schema: Schema,
    pub interface: u32,
}

/// Opens an interface file that includes no other.
pub fn open(alloc: Global, file: &[u8]) -> Option<Opened>
    ensures { IfSome result (λ opened. opened.interface < length opened.schema.interfaces) }
{
    let tree = read_tree(alloc, "", file).ok()?;
    // The entries are those of the text.
    let _entries = tree.entries();
    let schema = check(alloc, slice::from_ref(&tree)).ok()?;
    let count = u32::try_from(schema.interfaces().len()).ok()?;
    let interface = count.checked_sub(1)?;
    Some(Opened { schema, interface })
}

/// The functions of an interface.
pub fn funcs_of(schema: &Schema, interface: u32) -> &[FuncDesc]
    requires { interface < length schema.now.interfaces }
    ensures { result.now ≡ functions_of schema.now interface }
{
    schema.interfaces()[interface as usize].funcs.as_slice()
}

/// The function of a number.
#[tactic(auto, using(crate::proofs::FuncRules::few_params))]
pub fn func_at(schema: &Schema, interface: u32, number: u32) -> Option<&FuncDesc>
    requires { interface < length schema.now.interfaces }
    ensures func { option_copied result ≡ slice_get (functions_of schema.now interface) number }
    ensures params { IfSome result (λ func. AreParams func.now.params) }
{
    // By the rules of a schema a function has few parameters, of names that differ.
    let _order = schema.order();
    lines_are_judged();
    funcs_of(schema, interface).get(number as usize)
}

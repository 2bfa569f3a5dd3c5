ghost use Rattle.std.specs.Prelude.{◌≡◌, ◌<◌, ◌≤◌, length, slice_get, Some as is_there};
ghost use Rattle.tars_model.specs.Members.{MAX_PARAMS, arguments_of, reply_members_of};
ghost use Rattle.tars_decode.specs.Decoding.{MembersFit};
ghost use Rattle.servant_core.specs.Functions.{functions_of};

use tars_model::{FuncDesc, Schema};

/// The functions of an interface.
pub(crate) fn funcs_of(schema: &Schema, interface: u32) -> &[FuncDesc]
    requires { interface < length schema.now.interfaces }
    ensures funcs { result.now ≡ functions_of schema.now interface }
    ensures few { length result.now ≤ 256 }
{
    // By its rules an interface of a schema has few functions.
    let _order = schema.order();
    schema.interfaces()[interface as usize].funcs.as_slice()
}

/// The function of a number.
pub(crate) fn func_at(schema: &Schema, interface: u32, func: usize) -> &FuncDesc
    requires interface { interface < length schema.now.interfaces }
    requires func { func < length (functions_of schema.now interface) }
    ensures found { slice_get (functions_of schema.now interface) func ≡ is_there result.now }
    ensures few { length result.now.params ≤ MAX_PARAMS }
    ensures arguments { MembersFit schema.now (arguments_of result.now) }
    ensures reply { MembersFit schema.now (reply_members_of result.now) }
{
    // By its rules a function has few parameters, of types over what the schema declares.
    let _order = schema.order();
    &funcs_of(schema, interface)[func]
}

//! The functions of an interface by their names.

ghost use Rattle.std.specs.Prelude.{◌≡◌, ◌<◌, ℕ, Some as is_there, IfSome, length, position};
ghost use Rattle.std.specs.Str.{bytes_eq};
ghost use Rattle.script_rules.specs.Functions.{AreFuncs, IsFunctionOf};
ghost use Rattle.tars_model.specs.declared.func_desc.FuncDesc.{FuncDesc as Func};

use tars_model::FuncDesc;

/// The place of the first function of a name.
fn place_of(funcs: &[FuncDesc], name: &[u8]) -> Option<usize>
    ensures place { result ≡ position (λ (f : Func). bytes_eq name.now f.name) funcs.now }
    ensures within { IfSome result (λ place. place < length funcs.now) }
{
    funcs.iter().position(|func| name == func.name.as_slice())
}

/// The number of the function of a name among those of an interface.
pub fn function_of(funcs: &[FuncDesc], name: &[u8]) -> Option<u32>
    requires { AreFuncs funcs.now }
    ensures found { IfSome result (λ number. IsFunctionOf funcs.now name.now number) }
    // Where a function has the name, it is found.
    ensures only { (number : ℕ) → IsFunctionOf funcs.now name.now number → result ≡ is_there number }
{
    let number = place_of(funcs, name)?;
    Some(number as u32)
}

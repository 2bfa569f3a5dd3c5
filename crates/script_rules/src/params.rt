//! The parameters of a function by their names.

ghost use Rattle.std.specs.Prelude.{◌≡◌, ℕ, Some as is_there, IfSome};
ghost use Rattle.script_rules.specs.Functions.{AreParams};
ghost use Rattle.script_rules.specs.Outcomes.{Finds};
ghost use Rattle.script_rules.specs.Rules.{NamedAt, IsEchoed, AreAdded};
ghost use Rattle.servant_core.specs.Rules.{IsWhole, is_whole};
ghost use Rattle.tars_model.specs.declared.ty.Ty.{Ty as Kind, out-Ty};

use tars_model::{FuncDesc, Ty};

/// The place of the parameter of a name among those that are not `out`, from 0, and its type.
fn param_named<'a>(func: &'a FuncDesc, name: &[u8]) -> Option<(u32, &'a Ty)>
    requires { AreParams func.now.params }
    ensures found { IfSome result (λ x. NamedAt func.now name.now x.0 (λ t. t ≡ x.1.now)) }
    ensures only { (place : ℕ) (t : Kind) → NamedAt func.now name.now place (λ taken. taken ≡ t)
        → Finds (λ ty. ty.now) result place t }
{
    let mut place = 0;
    for param in func.params.as_slice() {
        if !param.out {
            if param.name.as_slice() == name {
                return Some((place, &param.ty));
            }
            place += 1;
        }
    }
    None
}

/// The place of the parameter of a name that has the type of what is returned.
pub fn echoed(func: &FuncDesc, name: &[u8]) -> Option<u32>
    requires { AreParams func.now.params }
    ensures found { IfSome result (λ place. IsEchoed func.now name.now place) }
    ensures only { (place : ℕ) → IsEchoed func.now name.now place → result ≡ is_there place }
{
    let Some(returned) = &func.ret else {
        return None;
    };
    let (place, ty) = param_named(func, name)?;
    if ty.is_same(returned) {
        Some(place)
    } else {
        None
    }
}

fn is_whole(ty: &Ty) -> bool
    ensures { result ≡ is_whole (out-Ty ty.now) }
{
    matches!(
        ty,
        Ty::Byte | Ty::Short | Ty::Int | Ty::Long | Ty::UByte | Ty::UShort | Ty::UInt
    )
}

/// The place of the parameter of a name, if it is a whole number.
fn whole_named(func: &FuncDesc, name: &[u8]) -> Option<u32>
    requires { AreParams func.now.params }
    ensures found { IfSome result (λ place. NamedAt func.now name.now place IsWhole) }
    ensures only { (place : ℕ) → NamedAt func.now name.now place IsWhole → result ≡ is_there place }
{
    let (place, ty) = param_named(func, name)?;
    if is_whole(ty) { Some(place) } else { None }
}

/// The places of the parameters of two names, if they and what is returned are whole numbers.
pub fn added(func: &FuncDesc, left: &[u8], right: &[u8]) -> Option<(u32, u32)>
    requires { AreParams func.now.params }
    ensures found { IfSome result (λ x. AreAdded func.now left.now right.now x.0 x.1) }
    ensures only { (first second : ℕ) → AreAdded func.now left.now right.now first second → Finds (λ n. n) result first second }
{
    let Some(returned) = &func.ret else {
        return None;
    };
    if !is_whole(returned) {
        return None;
    }
    let first = whole_named(func, left)?;
    let second = whole_named(func, right)?;
    Some((first, second))
}

//! Functions of interfaces.

ghost use Rattle.std.specs.Prelude.{◌≡◌, map, IfOk};
ghost use Rattle.std.specs.List.{All};
ghost use Rattle.idl_parse.specs.TreeSpans.{IfThere, TypeIn, ParamIn, FuncIn};
ghost use Rattle.idl_schema.specs.SchemaOf as spec;

use crate::place::Place;
use crate::types::resolved;
use idl_parse::tree::{FuncTree, ParamTree, TypeTree};
use std::alloc::{AllocError, Global};
use tars_model::{FuncDesc, List, Name, Param, Ty};

fn param(alloc: Global, place: &Place<'_, '_>, tree: &ParamTree) -> Result<Param, AllocError>
    requires { ParamIn place.now.text tree.now }
    ensures { IfOk result (λ p. p ≡ spec.param_of place.now tree.now) }
{
    let name = Name::from_slice(alloc, place.word(tree.typed.name))?;
    let ty = resolved(alloc, place, &tree.typed.ty)?;
    Ok(Param {
        name,
        ty,
        out: tree.out,
    })
}

fn params(
    alloc: Global,
    place: &Place<'_, '_>,
    trees: &[ParamTree],
) -> Result<List<Param>, AllocError>
    requires { All (ParamIn place.now.text) trees.now }
    ensures { IfOk result (λ ps. ps ≡ map (spec.param_of place.now) trees.now) }
{
    let mut params = List::new(alloc);
    for tree in trees {
        params.push(param(alloc, place, tree)?)?;
    }
    Ok(params)
}

fn returned(
    alloc: Global,
    place: &Place<'_, '_>,
    ret: &Option<TypeTree>,
) -> Result<Option<Ty>, AllocError>
    requires { IfThere (TypeIn place.now.text) ret.now }
    ensures { IfOk result (λ t. t ≡ spec.returned_type place.now ret.now) }
{
    match ret {
        Some(ty) => Ok(Some(resolved(alloc, place, ty)?)),
        None => Ok(None),
    }
}

fn func(alloc: Global, place: &Place<'_, '_>, tree: &FuncTree) -> Result<FuncDesc, AllocError>
    requires { FuncIn place.now.text tree.now }
    ensures { IfOk result (λ f. f ≡ spec.func_of place.now tree.now) }
{
    let name = Name::from_slice(alloc, place.word(tree.name))?;
    let ret = returned(alloc, place, &tree.ret)?;
    let params = params(alloc, place, tree.params.as_slice())?;
    Ok(FuncDesc { name, ret, params })
}

/// The functions of an interface.
pub(crate) fn funcs(
    alloc: Global,
    place: &Place<'_, '_>,
    trees: &[FuncTree],
) -> Result<List<FuncDesc>, AllocError>
    requires { All (FuncIn place.now.text) trees.now }
    ensures { IfOk result (λ fs. fs ≡ map (spec.func_of place.now) trees.now) }
{
    let mut funcs = List::new(alloc);
    for tree in trees {
        funcs.push(func(alloc, place, tree)?)?;
    }
    Ok(funcs)
}

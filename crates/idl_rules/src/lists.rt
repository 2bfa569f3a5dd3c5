//! The lists of names in declarations.

ghost use Rattle.std.specs.Prelude.{◌≡◌, false, None, map, OnOk, IfOk};
ghost use Rattle.std.specs.List.{All};
ghost use Rattle.least_fault.specs.Least.{Notes};
ghost use Rattle.idl_parse.specs.TreeSpans.{DeclIn, FuncIn, ItemIn, MemberIn, NameIn, ParamIn};
ghost use Rattle.idl_parse.specs.declared.tree.decl.DeclTree.TheVariants as decls;
ghost use Rattle.idl_scene.specs.Faults.{is_below};
ghost use Rattle.idl_scene.specs.KnownSteps.{kept_meaning};
ghost use Rattle.idl_rules.specs.Conditions.{declared_as};
ghost use Rattle.idl_rules.specs.JudgeSteps.{list_faults, lists_faults};
ghost use Rattle.idl_rules.specs.Parts.{declaration_lists, name_list, param_list};

use crate::named::judge_names;
use idl_lex::Span;
use idl_parse::tree::{DeclTree, EnumTree, FuncTree, InterfaceTree, StructTree};
use idl_scene::{Fault, Meaning, Scene, struct_depth, struct_size};
use std::alloc::{AllocError, Global};

/// How many enumerators an enum may have, functions an interface, and parameters a function.
const MAX_ITEMS: usize = 1024;

const MAX_FUNCS: usize = 256;

const MAX_PARAMS: usize = 64;

fn judge_struct<'a>(
    alloc: Global,
    s: &StructTree,
    scene: &Scene<'_, 'a>,
    least: &mut Option<Fault>,
) -> Result<Meaning<'a>, AllocError>
    requires { All (MemberIn scene.now.text) s.now.members }
    ensures found { OnOk result (Notes is_below least.old least.new (lists_faults scene.now (declaration_lists (decls.Struct s.now)))) }
    ensures meaning { IfOk result (λ m. kept_meaning m ≡ declared_as scene.now (decls.Struct s.now)) }
{
    let list = s.members.as_slice();
    let members = judge_names(alloc, list, true, None, scene, least)?;
    Ok(Meaning::Struct {
        depth: struct_depth(list, scene),
        size: struct_size(list, scene),
        members,
    })
}

fn judge_enum<'a>(
    alloc: Global,
    e: &EnumTree,
    scene: &Scene<'_, 'a>,
    least: &mut Option<Fault>,
) -> Result<Meaning<'a>, AllocError>
    requires { All (ItemIn scene.now.text) e.now.items }
    ensures found { OnOk result (Notes is_below least.old least.new (lists_faults scene.now (declaration_lists (decls.Enum e.now)))) }
    ensures meaning { IfOk result (λ m. kept_meaning m ≡ declared_as scene.now (decls.Enum e.now)) }
{
    let items = e.items.as_slice();
    let names = judge_names(alloc, items, true, Some(MAX_ITEMS), scene, least)?;
    Ok(Meaning::Enum(names))
}

/// Judges the names in a key.
fn judge_key(
    alloc: Global,
    members: &[Span],
    scene: &Scene<'_, '_>,
    least: &mut Option<Fault>,
) -> Result<(), AllocError>
    requires { All (NameIn scene.now.text) members.now }
    ensures { OnOk result (Notes is_below least.old least.new (list_faults scene.now (name_list false None members.now))) }
{
    judge_names(alloc, members, false, None, scene, least)?;
    Ok(())
}

/// Judges the names of a function's parameters.
fn judge_params(
    alloc: Global,
    func: &FuncTree,
    scene: &Scene<'_, '_>,
    least: &mut Option<Fault>,
) -> Result<(), AllocError>
    requires { FuncIn scene.now.text func.now }
    ensures { OnOk result (Notes is_below least.old least.new (list_faults scene.now (param_list func.now))) }
{
    let params = func.params.as_slice();
    judge_names(alloc, params, true, Some(MAX_PARAMS), scene, least)?;
    Ok(())
}

/// Judges the names of the parameters of each function.
fn judge_all_params(
    alloc: Global,
    funcs: &[FuncTree],
    scene: &Scene<'_, '_>,
    least: &mut Option<Fault>,
) -> Result<(), AllocError>
    requires { All (FuncIn scene.now.text) funcs.now }
    ensures { OnOk result (Notes is_below least.old least.new (lists_faults scene.now (map param_list funcs.now))) }
{
    for func in funcs {
        judge_params(alloc, func, scene, least)?;
    }
    Ok(())
}

fn judge_interface(
    alloc: Global,
    i: &InterfaceTree,
    scene: &Scene<'_, '_>,
    least: &mut Option<Fault>,
) -> Result<(), AllocError>
    requires { All (FuncIn scene.now.text) i.now.funcs }
    ensures { OnOk result (Notes is_below least.old least.new (lists_faults scene.now (declaration_lists (decls.Interface i.now)))) }
{
    let funcs = i.funcs.as_slice();
    judge_names(alloc, funcs, true, Some(MAX_FUNCS), scene, least)?;
    judge_all_params(alloc, funcs, scene, least)?;
    Ok(())
}

/// Judges the lists of names in a declaration. Returns what its own name means from then on.
pub(crate) fn judge_lists<'a>(
    alloc: Global,
    decl: &DeclTree,
    scene: &Scene<'_, 'a>,
    least: &mut Option<Fault>,
) -> Result<Meaning<'a>, AllocError>
    requires { DeclIn scene.now.text decl.now }
    ensures found { OnOk result (Notes is_below least.old least.new (lists_faults scene.now (declaration_lists decl.now))) }
    ensures meaning { IfOk result (λ m. kept_meaning m ≡ declared_as scene.now decl.now) }
{
    match decl {
        DeclTree::Struct(s) => judge_struct(alloc, s, scene, least),
        DeclTree::Enum(e) => judge_enum(alloc, e, scene, least),
        DeclTree::Const(_) => Ok(Meaning::NoType),
        DeclTree::Key(k) => {
            judge_key(alloc, k.members.as_slice(), scene, least)?;
            Ok(Meaning::NoType)
        }
        DeclTree::Interface(i) => {
            judge_interface(alloc, i, scene, least)?;
            Ok(Meaning::NoType)
        }
    }
}

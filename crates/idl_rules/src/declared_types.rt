//! The types that are written in declarations.

ghost use Rattle.std.specs.Prelude.{◌≡◌};
ghost use Rattle.std.specs.List.{All, flat_map};
ghost use Rattle.least_fault.specs.Least.{Notes};
ghost use Rattle.idl_parse.specs.TreeSpans.{DeclIn, FuncIn, IfThere, MemberIn, ParamIn, TypeIn};
ghost use Rattle.idl_scene.specs.Faults.{is_below};
ghost use Rattle.idl_scene.specs.Types.{types_in};
ghost use Rattle.idl_rules.specs.JudgeSteps.{type_faults, types_faults};
ghost use Rattle.idl_rules.specs.Parts.{returned_types, param_types, func_types, member_types, declaration_types};

use idl_parse::tree::{DeclTree, FuncTree, MemberTree, ParamTree, TypeTree};
use idl_scene::{
    Fault, Scene, note_bad_key, note_deep, note_float, note_unknown, note_unsigned_bytes,
};

/// Judges one type without those inside it.
fn judge_layer(ty: &TypeTree, scene: &Scene<'_, '_>, least: &mut Option<Fault>)
    requires { TypeIn scene.now.text ty.now }
    ensures { Notes is_below least.old least.new (type_faults scene.now ty.now) }
{
    note_unknown(ty, scene, least);
    note_float(ty, scene, least);
    note_bad_key(ty, scene, least);
    note_deep(ty, scene, least);
    note_unsigned_bytes(ty, scene, least);
}

/// Judges a type and those inside it.
fn judge_type(ty: &TypeTree, scene: &Scene<'_, '_>, least: &mut Option<Fault>)
    requires { TypeIn scene.now.text ty.now }
    ensures { Notes is_below least.old least.new (types_faults scene.now (types_in ty.now)) }
{
    judge_layer(ty, scene, least);
    match ty {
        TypeTree::Vector { element, .. } => judge_type(element.get(), scene, least),
        TypeTree::Map { key, value, .. } => {
            judge_type(key.get(), scene, least);
            judge_type(value.get(), scene, least);
        }
        TypeTree::Basic { .. } => {}
        TypeTree::Named(_) => {}
    }
}

fn judge_members(members: &[MemberTree], scene: &Scene<'_, '_>, least: &mut Option<Fault>)
    requires { All (MemberIn scene.now.text) members.now }
    ensures { Notes is_below least.old least.new (types_faults scene.now (flat_map member_types members.now)) }
{
    for member in members {
        judge_type(&member.typed.ty, scene, least);
    }
}

fn judge_params(params: &[ParamTree], scene: &Scene<'_, '_>, least: &mut Option<Fault>)
    requires { All (ParamIn scene.now.text) params.now }
    ensures { Notes is_below least.old least.new (types_faults scene.now (flat_map param_types params.now)) }
{
    for param in params {
        judge_type(&param.typed.ty, scene, least);
    }
}

fn judge_returned(ret: &Option<TypeTree>, scene: &Scene<'_, '_>, least: &mut Option<Fault>)
    requires { IfThere (TypeIn scene.now.text) ret.now }
    ensures { Notes is_below least.old least.new (types_faults scene.now (returned_types ret.now)) }
{
    if let Some(ty) = ret {
        judge_type(ty, scene, least);
    }
}

fn judge_func(func: &FuncTree, scene: &Scene<'_, '_>, least: &mut Option<Fault>)
    requires { FuncIn scene.now.text func.now }
    ensures { Notes is_below least.old least.new (types_faults scene.now (func_types func.now)) }
{
    judge_returned(&func.ret, scene, least);
    judge_params(func.params.as_slice(), scene, least);
}

fn judge_funcs(funcs: &[FuncTree], scene: &Scene<'_, '_>, least: &mut Option<Fault>)
    requires { All (FuncIn scene.now.text) funcs.now }
    ensures { Notes is_below least.old least.new (types_faults scene.now (flat_map func_types funcs.now)) }
{
    for func in funcs {
        judge_func(func, scene, least);
    }
}

/// Judges the types that are written in a declaration.
pub(crate) fn judge_types(decl: &DeclTree, scene: &Scene<'_, '_>, least: &mut Option<Fault>)
    requires { DeclIn scene.now.text decl.now }
    ensures { Notes is_below least.old least.new (types_faults scene.now (declaration_types decl.now)) }
{
    match decl {
        DeclTree::Struct(s) => judge_members(s.members.as_slice(), scene, least),
        DeclTree::Const(c) => judge_type(&c.typed.ty, scene, least),
        DeclTree::Interface(i) => judge_funcs(i.funcs.as_slice(), scene, least),
        DeclTree::Enum(_) => {}
        DeclTree::Key(_) => {}
    }
}

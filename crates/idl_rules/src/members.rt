//! Members of structs: tags, defaults and arrays.

ghost use Rattle.std.specs.Prelude.{◌≡◌, OnOk};
ghost use Rattle.std.specs.List.{All};
ghost use Rattle.least_fault.specs.Least.{Notes};
ghost use Rattle.idl_parse.specs.TreeSpans.{ArrayIn, IfThere, LiteralIn, MemberIn, NumberIn, TypeIn};
ghost use Rattle.idl_parse.specs.declared.tree.type_tree.TypeTree.{out-TypeTree};
ghost use Rattle.idl_scene.specs.Faults.{is_below};
ghost use Rattle.idl_scene.specs.NumberSteps.{tag_at};
ghost use Rattle.idl_rules.specs.Conditions.{member_rules};
ghost use Rattle.idl_rules.specs.JudgeSteps.{found_in};
ghost use Rattle.idl_rules.specs.PartSteps.{tags_with, faults_of_tag, faults_of_member};
ghost use Rattle.idl_rules.specs.Rules as spec;

use crate::literals::judge_literal;
use idl_lex::Span;
use idl_parse::tree::{ArrayLen, Literal, MemberTree, TypeTree};
use idl_scene::{CheckWhy, Fault, Scene, note_if};
use indexmap::IndexSet;
use std::alloc::{AllocError, Global};

/// How many bytes a default text may have.
const MAX_TEXT: usize = 255;

/// Judges a tag after the tags of other members.
fn judge_tag(
    span: Span,
    tags: &mut IndexSet<u8>,
    scene: &Scene<'_, '_>,
    least: &mut Option<Fault>,
) -> Result<(), AllocError>
    requires { NumberIn scene.now.text span }
    ensures found { OnOk result (Notes is_below least.old least.new (faults_of_tag scene.now tags.old.keys span (tag_at scene.now span))) }
    ensures tags { OnOk result (tags.new.keys ≡ tags_with tags.old.keys (tag_at scene.now span)) }
{
    match scene.tag(span) {
        Some(tag) => {
            let new = tags.insert(tag)?;
            note_if(least, !new, scene.file, span.start, CheckWhy::TwiceTag);
            Ok(())
        }
        None => {
            note_if(least, true, scene.file, span.start, CheckWhy::TagRange);
            Ok(())
        }
    }
}

/// Judges the default of a member.
fn judge_default(
    alloc: Global,
    ty: &TypeTree,
    default: Option<Literal>,
    scene: &Scene<'_, '_>,
    least: &mut Option<Fault>,
) -> Result<(), AllocError>
    requires ty { TypeIn scene.now.text ty.now }
    requires default { IfThere (LiteralIn scene.now.text) default }
    ensures { OnOk result (Notes is_below least.old least.new (spec.bad_written scene.now (out-TypeTree ty.now) default)) }
{
    match default {
        Some(literal) => judge_literal(alloc, ty, literal, Some(MAX_TEXT), scene, least),
        None => Ok(()),
    }
}

/// Notes what is left out at a place, if there is one.
pub(crate) fn note_left_out(at: Option<u32>, scene: &Scene<'_, '_>, least: &mut Option<Fault>)
    ensures { Notes is_below least.old least.new (spec.left_out scene.now at) }
{
    if let Some(at) = at {
        note_if(least, true, scene.file, at, CheckWhy::LeftOut);
    }
}

/// Where the `[` of an array stands.
fn array_at(array: Option<ArrayLen>) -> Option<u32>
    ensures { result ≡ spec.array_at array }
{
    match array {
        Some(array) => Some(array.at),
        None => None,
    }
}

/// Judges a member after others with these tags.
fn judge_member(
    alloc: Global,
    member: &MemberTree,
    tags: &mut IndexSet<u8>,
    scene: &Scene<'_, '_>,
    least: &mut Option<Fault>,
) -> Result<(), AllocError>
    requires { MemberIn scene.now.text member.now }
    ensures found { OnOk result (Notes is_below least.old least.new (faults_of_member scene.now tags.old.keys member.now)) }
    ensures tags { OnOk result (tags.new.keys ≡ tags_with tags.old.keys (tag_at scene.now member.now.tag)) }
{
    judge_tag(member.tag, tags, scene, least)?;
    judge_default(alloc, &member.typed.ty, member.default, scene, least)?;
    note_left_out(array_at(member.array), scene, least);
    Ok(())
}

/// Judges the members of a struct, but for their types and names.
pub(crate) fn judge_members(
    alloc: Global,
    members: &[MemberTree],
    scene: &Scene<'_, '_>,
    least: &mut Option<Fault>,
) -> Result<(), AllocError>
    requires { All (MemberIn scene.now.text) members.now }
    ensures { OnOk result (Notes is_below least.old least.new (found_in member_rules scene.now members.now)) }
{
    let mut tags: IndexSet<u8> = IndexSet::new(alloc);
    for member in members {
        judge_member(alloc, member, &mut tags, scene, least)?;
    }
    Ok(())
}

//! Structs: how deep they are, and how many values their defaults have.

ghost use Rattle.std.specs.Prelude.{◌≡◌, ◌+◌};
ghost use Rattle.std.specs.List.{All};
ghost use Rattle.idl_parse.specs.TreeSpans.{MemberIn, TypeIn};
ghost use Rattle.idl_parse.specs.declared.tree.type_tree.TypeTree.{out-TypeTree};
ghost use Rattle.idl_scene.specs.Known.{size_of as size_of_meaning};
ghost use Rattle.idl_scene.specs.KnownSteps.{meant};
ghost use Rattle.idl_scene.specs.Structs as spec;

use crate::known::Meaning;
use crate::scene::Scene;
use crate::types::{one_deeper, type_depth};
use idl_parse::tree::{Literal, MemberTree, TypeTree};

/// The greatest size that is counted: one more than there may be.
const LARGEST: u32 = 1025;

/// The greatest depth of the members' types.
fn deepest(members: &[MemberTree], scene: &Scene<'_, '_>) -> u8
    requires { All (MemberIn scene.now.text) members.now }
    ensures { result ≡ spec.deepest scene.now members.now }
{
    let mut depth: u8 = 0;
    for member in members {
        depth = depth.max(type_depth(&member.typed.ty, scene));
    }
    depth
}

/// The depth of a struct.
pub fn struct_depth(members: &[MemberTree], scene: &Scene<'_, '_>) -> u8
    requires { All (MemberIn scene.now.text) members.now }
    ensures { result ≡ spec.struct_depth scene.now members.now }
{
    one_deeper(deepest(members, scene))
}

fn capped_sum(a: u16, b: u16) -> u16
    ensures { result ≡ spec.capped (a + b) }
{
    (u32::from(a) + u32::from(b)).min(LARGEST) as u16
}

/// How many values the default of the struct that a name means has.
fn size_of(meaning: Option<&Meaning<'_>>) -> u16
    ensures { result ≡ size_of_meaning (meant meaning.entry) }
{
    match meaning {
        Some(Meaning::Struct { size, .. }) => *size,
        _ => 1,
    }
}

/// How many values the default of a type has.
fn type_size(ty: &TypeTree, scene: &Scene<'_, '_>) -> u16
    requires { TypeIn scene.now.text ty.now }
    ensures { result ≡ spec.type_size scene.now (out-TypeTree ty.now) }
{
    match ty {
        TypeTree::Named(name) => size_of(scene.meaning(*name)),
        _ => 1,
    }
}

fn default_size(ty: &TypeTree, default: &Option<Literal>, scene: &Scene<'_, '_>) -> u16
    requires { TypeIn scene.now.text ty.now }
    ensures { result ≡ spec.default_size scene.now (out-TypeTree ty.now) default.now }
{
    match default {
        Some(_) => 1,
        None => type_size(ty, scene),
    }
}

/// How many values the default of a struct has, itself counted.
pub fn struct_size(members: &[MemberTree], scene: &Scene<'_, '_>) -> u16
    requires { All (MemberIn scene.now.text) members.now }
    ensures { result ≡ spec.struct_size scene.now members.now }
{
    let mut size: u16 = 1;
    for member in members {
        size = capped_sum(size, default_size(&member.typed.ty, &member.default, scene));
    }
    size
}

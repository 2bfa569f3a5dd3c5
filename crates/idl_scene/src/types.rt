//! Types as they are written, and what is wrong with one, those inside it left aside.

ghost use Rattle.std.specs.Prelude.{◌≡◌};
ghost use Rattle.least_fault.specs.Least.{Notes};
ghost use Rattle.idl_parse.specs.TreeSpans.{ScopedIn, TypeIn};
ghost use Rattle.idl_parse.specs.declared.tree.type_tree.TypeTree.{out-TypeTree};
ghost use Rattle.idl_scene.specs.Faults.{is_below};
ghost use Rattle.idl_scene.specs.Known.{depth_of as depth_of_meaning, is_enum};
ghost use Rattle.idl_scene.specs.KnownSteps.{meant};
ghost use Rattle.idl_scene.specs.Types as spec;

use crate::check_fault::{CheckWhy, Fault};
use crate::known::Meaning;
use crate::note::note_if;
use crate::scene::Scene;
use idl_parse::tree::{BasicType, ScopedName, TypeTree};

/// The greatest depth that is counted: one more than there may be.
const DEEPEST: u8 = 33;

/// Where a name begins.
pub(crate) fn first_of_name(name: ScopedName) -> u32
    ensures { result ≡ spec.first_of_name name }
{
    match name.scope {
        Some(scope) => scope.start,
        None => name.name.start,
    }
}

/// Where the first token of a type begins.
fn first_token(ty: &TypeTree) -> u32
    ensures { result ≡ spec.first_token (out-TypeTree ty.now) }
{
    match ty {
        TypeTree::Basic { at, .. } | TypeTree::Vector { at, .. } | TypeTree::Map { at, .. } => *at,
        TypeTree::Named(name) => first_of_name(*name),
    }
}

/// The depth of what holds something of this depth.
pub(crate) fn one_deeper(depth: u8) -> u8
    ensures { result ≡ spec.one_deeper depth }
{
    if depth < DEEPEST { depth + 1 } else { depth }
}

/// The depth of the struct that a name means.
fn depth_of(meaning: Option<&Meaning<'_>>) -> u8
    ensures { result ≡ depth_of_meaning (meant meaning.entry) }
{
    match meaning {
        Some(Meaning::Struct { depth, .. }) => *depth,
        _ => 0,
    }
}

fn is_float(basic: BasicType) -> bool
    ensures { result ≡ spec.is_float basic }
{
    matches!(basic, BasicType::Float | BasicType::Double)
}

fn is_key_word(basic: BasicType) -> bool
    ensures { result ≡ spec.is_key_word basic }
{
    !matches!(
        basic,
        BasicType::Bool | BasicType::Float | BasicType::Double
    )
}

fn is_type(meaning: Option<&Meaning<'_>>) -> bool
    ensures { result ≡ spec.is_type (meant meaning.entry) }
{
    matches!(
        meaning,
        Some(Meaning::Struct { .. }) | Some(Meaning::Enum(_))
    )
}

/// Whether a name means an enum.
pub(crate) fn is_enum(meaning: Option<&Meaning<'_>>) -> bool
    ensures { result ≡ is_enum (meant meaning.entry) }
{
    matches!(meaning, Some(Meaning::Enum(_)))
}

/// Whether values of the type may be the keys of a map.
fn is_key(ty: &TypeTree, scene: &Scene<'_, '_>) -> bool
    requires { TypeIn scene.now.text ty.now }
    ensures { result ≡ spec.is_key scene.now (out-TypeTree ty.now) }
{
    match ty {
        TypeTree::Basic { basic, .. } => is_key_word(*basic),
        TypeTree::Named(name) => is_enum(scene.meaning(*name)),
        _ => false,
    }
}

fn is_unsigned_byte(ty: &TypeTree) -> bool
    ensures { result ≡ spec.is_unsigned_byte (out-TypeTree ty.now) }
{
    matches!(
        ty,
        TypeTree::Basic {
            basic: BasicType::UnsignedByte,
            ..
        }
    )
}

/// How deep values of a type are at most.
pub(crate) fn type_depth(ty: &TypeTree, scene: &Scene<'_, '_>) -> u8
    requires { TypeIn scene.now.text ty.now }
    ensures { result ≡ spec.type_depth scene.now ty.now }
{
    match ty {
        TypeTree::Basic { .. } => 0,
        TypeTree::Vector { element, .. } => one_deeper(type_depth(element.get(), scene)),
        TypeTree::Map { key, value, .. } => {
            let key = type_depth(key.get(), scene);
            let value = type_depth(value.get(), scene);
            one_deeper(key.max(value))
        }
        TypeTree::Named(name) => depth_of(scene.meaning(*name)),
    }
}

/// Notes a type's name that is no struct or enum.
pub fn note_unknown(ty: &TypeTree, scene: &Scene<'_, '_>, least: &mut Option<Fault>)
    requires { TypeIn scene.now.text ty.now }
    ensures { Notes is_below least.old least.new (spec.unknown_type scene.now (out-TypeTree ty.now)) }
{
    if let TypeTree::Named(name) = ty {
        let unknown = !is_type(scene.meaning(*name));
        let at = first_of_name(*name);
        note_if(least, unknown, scene.file, at, CheckWhy::UnknownName);
    }
}

/// Notes `float` and `double`.
pub fn note_float(ty: &TypeTree, scene: &Scene<'_, '_>, least: &mut Option<Fault>)
    ensures { Notes is_below least.old least.new (spec.float scene.now (out-TypeTree ty.now)) }
{
    if let TypeTree::Basic { at, basic } = ty {
        note_if(least, is_float(*basic), scene.file, *at, CheckWhy::Float);
    }
}

/// Notes a map whose key is of no type that keys may be of.
pub fn note_bad_key(ty: &TypeTree, scene: &Scene<'_, '_>, least: &mut Option<Fault>)
    requires { TypeIn scene.now.text ty.now }
    ensures { Notes is_below least.old least.new (spec.bad_key scene.now (out-TypeTree ty.now)) }
{
    if let TypeTree::Map { key, .. } = ty {
        let key = key.get();
        let bad = !is_key(key, scene);
        note_if(least, bad, scene.file, first_token(key), CheckWhy::BadKey);
    }
}

/// Notes a type that is deeper than 32.
pub fn note_deep(ty: &TypeTree, scene: &Scene<'_, '_>, least: &mut Option<Fault>)
    requires { TypeIn scene.now.text ty.now }
    ensures { Notes is_below least.old least.new (spec.deep_type scene.now ty.now) }
{
    let deep = type_depth(ty, scene) >= DEEPEST;
    note_if(least, deep, scene.file, first_token(ty), CheckWhy::TooDeep);
}

/// Notes `vector<unsigned byte>`.
pub fn note_unsigned_bytes(ty: &TypeTree, scene: &Scene<'_, '_>, least: &mut Option<Fault>)
    ensures { Notes is_below least.old least.new (spec.unsigned_bytes scene.now (out-TypeTree ty.now)) }
{
    if let TypeTree::Vector { element, .. } = ty {
        let element = element.get();
        let unsigned = is_unsigned_byte(element);
        note_if(
            least,
            unsigned,
            scene.file,
            first_token(element),
            CheckWhy::LeftOut,
        );
    }
}

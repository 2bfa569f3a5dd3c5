//! The names that are declared, and what is wrong with a declaration as a whole.

ghost use Rattle.std.specs.Prelude.{◌≡◌, is_some, [], not};
ghost use Rattle.least_fault.specs.Least.{Notes};
ghost use Rattle.idl_parse.specs.TreeSpans.{DeclIn, IfThere, NameIn};
ghost use Rattle.idl_scene.specs.Faults.{is_below, fault_if};
ghost use Rattle.idl_scene.specs.Items.{word};
ghost use Rattle.idl_scene.specs.Known.{find};
ghost use Rattle.idl_rules.specs.Conditions.{declaration_rules};
ghost use Rattle.idl_rules.specs.JudgeSteps.{found_at};
ghost use Rattle.idl_rules.specs.NamedSteps.{twice_named, reserved_named, full_named};
ghost use Rattle.idl_rules.specs.Rules as spec;

use crate::named::is_reserved;
use idl_lex::Span;
use idl_parse::tree::DeclTree;
use idl_scene::{CheckWhy, Fault, Room, Scene, note_if, struct_depth, struct_size};

/// How deep a struct may be, and how many values its default may have.
const MAX_DEPTH: u8 = 32;

const MAX_SIZE: u16 = 1024;

/// The name that is declared; a key has none.
pub(crate) fn name_of(decl: &DeclTree) -> Option<Span>
    ensures { result ≡ spec.name_of decl.now }
{
    match decl {
        DeclTree::Struct(d) => Some(d.name),
        DeclTree::Enum(d) => Some(d.name),
        DeclTree::Const(d) => Some(d.typed.name),
        DeclTree::Key(_) => None,
        DeclTree::Interface(d) => Some(d.name),
    }
}

/// How many more declarations of this one's sort there may be.
fn room_for(room: Room, decl: &DeclTree) -> Option<u16>
    ensures { result ≡ spec.room_for room decl.now }
{
    match decl {
        DeclTree::Struct(_) => Some(room.structs),
        DeclTree::Enum(_) => Some(room.enums),
        DeclTree::Const(_) => Some(room.consts),
        DeclTree::Key(_) => None,
        DeclTree::Interface(_) => Some(room.interfaces),
    }
}

fn is_none_left(left: Option<u16>) -> bool
    ensures { result ≡ spec.is_none_left left }
{
    match left {
        Some(left) => left == 0,
        None => false,
    }
}

/// Whether the name stands in its module already.
pub(crate) fn is_declared(name: Span, scene: &Scene<'_, '_>) -> bool
    requires { NameIn scene.now.text name }
    ensures { result ≡ is_some (find scene.now.home (word scene.now.text name) scene.now.known) }
{
    scene.meaning_here(name).is_some()
}

/// Notes a name with `tars_` in it.
pub(crate) fn note_reserved(name: Span, scene: &Scene<'_, '_>, least: &mut Option<Fault>)
    requires { NameIn scene.now.text name }
    ensures { Notes is_below least.old least.new (spec.reserved scene.now name) }
{
    let reserved = is_reserved(scene.word(name));
    note_if(
        least,
        reserved,
        scene.file,
        name.start,
        CheckWhy::BadIdentifier,
    );
}

fn note_twice(name: Option<Span>, scene: &Scene<'_, '_>, least: &mut Option<Fault>)
    requires { IfThere (NameIn scene.now.text) name }
    ensures { Notes is_below least.old least.new (twice_named scene.now name) }
{
    if let Some(name) = name {
        let twice = is_declared(name, scene);
        note_if(least, twice, scene.file, name.start, CheckWhy::TwiceName);
    }
}

fn note_reserved_name(name: Option<Span>, scene: &Scene<'_, '_>, least: &mut Option<Fault>)
    requires { IfThere (NameIn scene.now.text) name }
    ensures { Notes is_below least.old least.new (reserved_named scene.now name) }
{
    if let Some(name) = name {
        note_reserved(name, scene, least);
    }
}

fn note_full(name: Option<Span>, full: bool, scene: &Scene<'_, '_>, least: &mut Option<Fault>)
    ensures { Notes is_below least.old least.new (full_named scene.now full name) }
{
    if let Some(name) = name {
        note_if(least, full, scene.file, name.start, CheckWhy::TooMany);
    }
}

fn note_deep(decl: &DeclTree, scene: &Scene<'_, '_>, least: &mut Option<Fault>)
    requires { DeclIn scene.now.text decl.now }
    ensures { Notes is_below least.old least.new (spec.deep_struct scene.now decl.now) }
{
    if let DeclTree::Struct(d) = decl {
        let deep = struct_depth(d.members.as_slice(), scene) > MAX_DEPTH;
        note_if(least, deep, scene.file, d.name.start, CheckWhy::TooDeep);
    }
}

fn note_large(decl: &DeclTree, scene: &Scene<'_, '_>, least: &mut Option<Fault>)
    requires { DeclIn scene.now.text decl.now }
    ensures { Notes is_below least.old least.new (spec.large_default scene.now decl.now) }
{
    if let DeclTree::Struct(d) = decl {
        let large = struct_size(d.members.as_slice(), scene) > MAX_SIZE;
        note_if(least, large, scene.file, d.name.start, CheckWhy::TooMany);
    }
}

/// Judges a declaration as a whole, and its name.
pub(crate) fn judge_declaration(decl: &DeclTree, scene: &Scene<'_, '_>, least: &mut Option<Fault>)
    requires decl { DeclIn scene.now.text decl.now }
    requires name { IfThere (NameIn scene.now.text) (spec.name_of decl.now) }
    ensures { Notes is_below least.old least.new (found_at declaration_rules scene.now [] decl.now) }
{
    let name = name_of(decl);
    let full = is_none_left(room_for(scene.room, decl));
    note_twice(name, scene, least);
    note_reserved_name(name, scene, least);
    note_deep(decl, scene, least);
    note_full(name, full, scene, least);
    note_large(decl, scene, least);
}

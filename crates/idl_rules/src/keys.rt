//! Keys: the struct and the members that they name.

ghost use Rattle.std.specs.Prelude.{◌≡◌, [], not};
ghost use Rattle.std.specs.List.{All, list_any};
ghost use Rattle.std.specs.Str.{bytes_eq};
ghost use Rattle.least_fault.specs.Conditions.{found_after};
ghost use Rattle.least_fault.specs.Least.{Notes};
ghost use Rattle.idl_parse.specs.TreeSpans.{NameIn};
ghost use Rattle.idl_scene.specs.Faults.{is_below, fault_if};
ghost use Rattle.idl_scene.specs.declared.check_fault.CheckWhy.TheVariants.{UnknownName as Unknown};
ghost use Rattle.idl_scene.specs.Known.{is_struct, members_of};
ghost use Rattle.idl_scene.specs.KnownSteps.{meant};
ghost use Rattle.idl_rules.specs.Conditions.{key_rules};
ghost use Rattle.idl_rules.specs.JudgeSteps.{found_at};
ghost use Rattle.idl_rules.specs.Rules as spec;

use idl_lex::Span;
use idl_parse::tree::KeyTree;
use idl_scene::{CheckWhy, Fault, Meaning, Scene, note_if};

fn is_struct(meaning: Option<&Meaning<'_>>) -> bool
    ensures { result ≡ is_struct (meant meaning.entry) }
{
    matches!(meaning, Some(Meaning::Struct { .. }))
}

/// Whether the struct that a name means has this member.
fn has_member<'a>(meaning: Option<&Meaning<'a>>, name: &'a [u8]) -> bool
    ensures { result ≡ list_any (bytes_eq name.now) (members_of (meant meaning.entry)) }
{
    match meaning {
        Some(Meaning::Struct { members, .. }) => members.contains(name),
        _ => false,
    }
}

/// Judges a name in a key of the struct of this meaning.
fn judge_name<'a>(
    name: Span,
    meaning: Option<&Meaning<'a>>,
    scene: &Scene<'_, 'a>,
    least: &mut Option<Fault>,
)
    requires { NameIn scene.now.text name }
    ensures { Notes is_below least.old least.new (spec.unknown_member scene.now (members_of (meant meaning.entry)) [] name) }
{
    let unknown = !has_member(meaning, scene.word(name));
    note_if(
        least,
        unknown,
        scene.file,
        name.start,
        CheckWhy::UnknownName,
    );
}

fn judge_members<'a>(
    members: &[Span],
    meaning: Option<&Meaning<'a>>,
    scene: &Scene<'_, 'a>,
    least: &mut Option<Fault>,
)
    requires { All (NameIn scene.now.text) members.now }
    ensures { Notes is_below least.old least.new (found_after (spec.unknown_member scene.now (members_of (meant meaning.entry))) [] members.now) }
{
    for name in members {
        judge_name(*name, meaning, scene, least);
    }
}

/// Notes the name of a struct that is none by this meaning.
fn note_unknown_struct(
    name: Span,
    meaning: Option<&Meaning<'_>>,
    scene: &Scene<'_, '_>,
    least: &mut Option<Fault>,
)
    ensures { Notes is_below least.old least.new (fault_if (not (is_struct (meant meaning.entry))) scene.now.file name.start Unknown) }
{
    let unknown = !is_struct(meaning);
    note_if(
        least,
        unknown,
        scene.file,
        name.start,
        CheckWhy::UnknownName,
    );
}

/// Judges a key.
pub(crate) fn judge_key(key: &KeyTree, scene: &Scene<'_, '_>, least: &mut Option<Fault>)
    requires name { NameIn scene.now.text key.now.struct_name }
    requires members { All (NameIn scene.now.text) key.now.members }
    ensures { Notes is_below least.old least.new (found_at key_rules scene.now [] key.now) }
{
    let name = key.struct_name;
    let meaning = scene.meaning_here(name);
    note_unknown_struct(name, meaning, scene, least);
    judge_members(key.members.as_slice(), meaning, scene, least);
}

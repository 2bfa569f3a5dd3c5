//! One walk over files, which judges one thing after the other.

ghost use Rattle.std.specs.Prelude.{◌≡◌, ℕ, [], map, List as Listed, IfOk, OnOk};
ghost use Rattle.std.specs.List.{All, list_any};
ghost use Rattle.std.specs.Str.{bytes_eq};
ghost use Rattle.least_fault.specs.Least.{Notes};
ghost use Rattle.idl_parse.specs.Files.{File};
ghost use Rattle.idl_parse.specs.TreeSpans.{DeclIn, EntryIn, IfThere, NameIn, StandsAt};
ghost use Rattle.idl_lex.specs.declared.kind.Kind.TheVariants as kinds;
ghost use Rattle.idl_scene.specs.Faults.{is_below};
ghost use Rattle.idl_scene.specs.Items.{item, included, block, declared, entry_items, declared_item, file_items, name_of};
ghost use Rattle.idl_scene.specs.KnownSteps.{kept_meaning};
ghost use Rattle.idl_rules.specs.Conditions.{declared_as, known_with, room_with};
ghost use Rattle.idl_rules.specs.JudgeSteps.{judged_faults, parts_faults, judged_of, judged_with, judged_after, judged_first};
ghost use Rattle.idl_rules.specs.Rules as spec;

use crate::declared_names::{judge_declaration, name_of, note_reserved};
use crate::declared_types::judge_types;
use crate::enumerators::judge_items;
use crate::keys::judge_key;
use crate::lists::judge_lists;
use crate::literals::judge_literal;
use crate::members::judge_members;
use crate::params::judge_routekeys;
use idl_lex::{Span, plain_text};
use idl_parse::Ast;
use idl_parse::tree::{DeclTree, Entry};
use idl_scene::{CheckWhy, Fault, Meaning, Names, Room, Scene, note_if};
use std::alloc::{AllocError, Global};

/// What is known after what was judged, and the least fault of it.
#[derive(Drop)]
pub(crate) struct Walk<'a> {
    pub names: Names<'a>,
    pub room: Room,
    pub least: Option<Fault>,
}

/// Judges the parts of a declaration, but for names and types.
fn judge_parts(
    alloc: Global,
    decl: &DeclTree,
    scene: &Scene<'_, '_>,
    least: &mut Option<Fault>,
) -> Result<(), AllocError>
    requires { DeclIn scene.now.text decl.now }
    ensures { OnOk result (Notes is_below least.old least.new (parts_faults scene.now (declared decl.now))) }
{
    match decl {
        DeclTree::Struct(s) => judge_members(alloc, s.members.as_slice(), scene, least)?,
        DeclTree::Enum(e) => judge_items(e.items.as_slice(), scene, least),
        DeclTree::Const(c) => judge_literal(alloc, &c.typed.ty, c.value, None, scene, least)?,
        DeclTree::Key(k) => judge_key(k, scene, least),
        DeclTree::Interface(i) => judge_routekeys(i.funcs.as_slice(), scene, least),
    }
    Ok(())
}

/// Judges a declaration. Returns what its name means from then on.
fn judge<'a>(
    alloc: Global,
    decl: &DeclTree,
    scene: &Scene<'_, 'a>,
    least: &mut Option<Fault>,
) -> Result<Meaning<'a>, AllocError>
    requires decl { DeclIn scene.now.text decl.now }
    requires name { IfThere (NameIn scene.now.text) (spec.name_of decl.now) }
    ensures found { OnOk result (Notes is_below least.old least.new (judged_faults scene.now (declared decl.now))) }
    ensures meaning { IfOk result (λ m. kept_meaning m ≡ declared_as scene.now decl.now) }
{
    judge_declaration(decl, scene, least);
    judge_types(decl, scene, least);
    let meaning = judge_lists(alloc, decl, scene, least)?;
    judge_parts(alloc, decl, scene, least)?;
    Ok(meaning)
}

/// Adds what the name of a declaration means, if it is new.
fn learn<'a>(
    names: &mut Names<'a>,
    text: &'a [u8],
    home: &'a [u8],
    name: Option<Span>,
    meaning: Meaning<'a>,
) -> Result<(), AllocError>
    requires { IfThere (NameIn text.now) name }
    ensures { OnOk result (names.new ≡ known_with text.now home.now names.old (kept_meaning meaning.entry) name) }
{
    if let Some(name) = name {
        let word = name.slice(text);
        if names.find(home, word).is_none() {
            names.add(home, word, meaning)?;
        }
    }
    Ok(())
}

/// The room that a declaration leaves.
fn room_with(room: Room, decl: &DeclTree) -> Room
    ensures { result ≡ room_with room decl.now }
{
    let mut room = room;
    match decl {
        DeclTree::Struct(_) => room.structs = room.structs.saturating_sub(1),
        DeclTree::Enum(_) => room.enums = room.enums.saturating_sub(1),
        DeclTree::Const(_) => room.consts = room.consts.saturating_sub(1),
        DeclTree::Key(_) => {}
        DeclTree::Interface(_) => room.interfaces = room.interfaces.saturating_sub(1),
    }
    room
}

/// Whether one of the files has this name.
fn is_named(files: &[Ast], name: &[u8]) -> bool
    ensures { result ≡ list_any (bytes_eq name.now) (map name_of files.now) }
{
    let mut left = files;
    while let [file, rest @ ..] = left {
        if name == file.name() {
            return true;
        }
        left = rest;
    }
    false
}

/// Notes an include whose name is that of none of these files.
fn note_include(
    alloc: Global,
    span: Span,
    earlier: &[Ast],
    scene: &Scene<'_, '_>,
    least: &mut Option<Fault>,
) -> Result<(), AllocError>
    requires { StandsAt scene.now.text kinds.Text span }
    ensures { OnOk result (Notes is_below least.old least.new (spec.no_include scene.now (record { span = span; earlier = map name_of earlier.now }))) }
{
    let name = plain_text(alloc, span.slice(scene.text))?;
    let known = is_named(earlier, name.as_slice());
    note_if(least, !known, scene.file, span.start, CheckWhy::NoInclude);
    Ok(())
}

impl<'a> Walk<'a> {
    pub fn new(alloc: Global) -> Walk<'a>
        ensures { judged_of result ≡ judged_first }
    {
        Walk {
            names: Names::new(alloc),
            room: Room {
                structs: 1024,
                enums: 1024,
                consts: 1024,
                interfaces: 256,
            },
            least: None,
        }
    }

    fn include(
        &mut self,
        alloc: Global,
        file: u32,
        text: &'a [u8],
        earlier: &[Ast],
        span: Span,
    ) -> Result<(), AllocError>
        requires { StandsAt text.now kinds.Text span }
        ensures { OnOk result (judged_of self.new ≡ judged_with (judged_of self.old) (item file text.now [] (included (record { span = span; earlier = map name_of earlier.now })))) }
    {
        let scene = Scene {
            file,
            text,
            home: &[],
            names: &self.names,
            room: self.room,
        };
        note_include(alloc, span, earlier, &scene, &mut self.least)?;
        Ok(())
    }

    /// Judges the name of a module at one of its blocks.
    fn block(&mut self, file: u32, text: &'a [u8], home: &'a [u8], name: Span)
        requires { NameIn text.now name }
        ensures { judged_of self.new ≡ judged_with (judged_of self.old) (item file text.now home.now (block name)) }
    {
        let scene = Scene {
            file,
            text,
            home,
            names: &self.names,
            room: self.room,
        };
        note_reserved(name, &scene, &mut self.least);
    }

    fn declaration(
        &mut self,
        alloc: Global,
        file: u32,
        text: &'a [u8],
        home: &'a [u8],
        decl: &DeclTree,
    ) -> Result<(), AllocError>
        requires decl { DeclIn text.now decl.now }
        requires name { IfThere (NameIn text.now) (spec.name_of decl.now) }
        ensures { OnOk result (judged_of self.new ≡ judged_with (judged_of self.old) (item file text.now home.now (declared decl.now))) }
    {
        let scene = Scene {
            file,
            text,
            home,
            names: &self.names,
            room: self.room,
        };
        let meaning = judge(alloc, decl, &scene, &mut self.least)?;
        learn(&mut self.names, text, home, name_of(decl), meaning)?;
        self.room = room_with(self.room, decl);
        Ok(())
    }

    /// Judges the declarations of a block.
    fn declarations(
        &mut self,
        alloc: Global,
        file: u32,
        text: &'a [u8],
        home: &'a [u8],
        decls: &[DeclTree],
    ) -> Result<(), AllocError>
        requires { All (DeclIn text.now) decls.now }
        ensures { OnOk result (judged_of self.new ≡ judged_after (judged_of self.old) (map (declared_item file text.now home.now) decls.now)) }
    {
        for decl in decls {
            self.declaration(alloc, file, text, home, decl)?;
        }
        Ok(())
    }

    fn entry(
        &mut self,
        alloc: Global,
        file: u32,
        earlier: &[Ast],
        text: &'a [u8],
        entry: &Entry,
    ) -> Result<(), AllocError>
        requires { EntryIn text.now entry.now }
        ensures { OnOk result (judged_of self.new ≡ judged_after (judged_of self.old) (entry_items file text.now (map name_of earlier.now) entry.now)) }
    {
        match entry {
            Entry::Include(span) => self.include(alloc, file, text, earlier, *span)?,
            Entry::Module(m) => {
                let home = m.name.slice(text);
                self.block(file, text, home, m.name);
                self.declarations(alloc, file, text, home, m.decls.as_slice())?;
            }
        }
        Ok(())
    }

    /// Judges a file of this number, which stands after others.
    pub fn file(
        &mut self,
        alloc: Global,
        file: u32,
        earlier: &[Ast],
        ast: &'a Ast,
    ) -> Result<(), AllocError>
        ensures { OnOk result (judged_of self.new ≡ judged_after (judged_of self.old) (file_items file (map name_of earlier.now) ast.now)) }
    {
        let text = ast.text();
        for entry in ast.entries() {
            self.entry(alloc, file, earlier, text, entry)?;
        }
        Ok(())
    }
}

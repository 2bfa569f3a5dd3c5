//! Declarations, as they stand in the block of their module.

ghost use Rattle.std.specs.Prelude.{◌≡◌, ◌++◌, codes, slice_get, OnOk};
ghost use Rattle.std.specs.List.{flat_map};
ghost use Rattle.canonical_text.specs.Canonical.{opening, closing, struct_text, enum_text, const_text, bare_name, key_text, interface_text, decl_text, struct_home, key_home, decl_home};

use crate::funcs::put_funcs;
use crate::literals::put_literal;
use crate::members::{put_items, put_members};
use crate::types::put_type;
use std::alloc::AllocError;
use tars_model::{ConstDesc, Decl, EnumDesc, InterfaceDesc, KeyDesc, Name, Schema, StructDesc};
use text_buffer::TextBuffer;

#[tactic(auto, unfolding(crate::specs::Canonical::opening))]
fn open(text: &mut TextBuffer, word: &str, name: &[u8]) -> Result<(), AllocError>
    ensures { OnOk result (text.new ≡ text.old ++ opening word.now name.now) }
{
    text.word("    ")?;
    text.word(word)?;
    text.word(" ")?;
    text.put(name)?;
    text.word("\n    {\n")
}

fn close(text: &mut TextBuffer) -> Result<(), AllocError>
    ensures { OnOk result (text.new ≡ text.old ++ closing) }
{
    text.word("    };\n")
}

#[tactic(auto, unfolding(crate::specs::Canonical::struct_text))]
fn put_struct(text: &mut TextBuffer, schema: &Schema, s: &StructDesc) -> Result<(), AllocError>
    ensures { OnOk result (text.new ≡ text.old ++ struct_text schema.now s.now) }
{
    open(text, "struct", &s.name)?;
    put_members(text, schema, &s.module, s.members.as_slice())?;
    close(text)
}

#[tactic(auto, unfolding(crate::specs::Canonical::enum_text))]
fn put_enum(text: &mut TextBuffer, e: &EnumDesc) -> Result<(), AllocError>
    ensures { OnOk result (text.new ≡ text.old ++ enum_text e.now) }
{
    open(text, "enum", &e.name)?;
    put_items(text, e.items.as_slice())?;
    close(text)
}

#[tactic(auto, unfolding(crate::specs::Canonical::const_text))]
fn put_const(text: &mut TextBuffer, schema: &Schema, c: &ConstDesc) -> Result<(), AllocError>
    ensures { OnOk result (text.new ≡ text.old ++ const_text schema.now c.now) }
{
    text.word("    const ")?;
    put_type(&c.ty, text, schema, &c.module)?;
    text.word(" ")?;
    text.put(&c.name)?;
    text.word(" = ")?;
    put_literal(text, &c.value)?;
    text.word(";\n")
}

/// The name of the struct of a number, and none where it is not there.
fn bare_name(schema: &Schema, number: u32) -> &[u8]
    ensures { result.now ≡ bare_name (slice_get schema.now.structs number) }
{
    match schema.structs().get(number as usize) {
        Some(s) => s.name.as_slice(),
        None => &[],
    }
}

fn put_names(text: &mut TextBuffer, names: &[Name]) -> Result<(), AllocError>
    ensures { OnOk result (text.new ≡ text.old ++ flat_map (λ name. codes ", " ++ name) names.now) }
{
    for name in names {
        text.word(", ")?;
        text.put(name)?;
    }
    Ok(())
}

#[tactic(auto, unfolding(crate::specs::Canonical::key_text))]
fn put_key(text: &mut TextBuffer, schema: &Schema, key: &KeyDesc) -> Result<(), AllocError>
    ensures { OnOk result (text.new ≡ text.old ++ key_text schema.now key.now) }
{
    text.word("    key[")?;
    text.put(bare_name(schema, key.of))?;
    put_names(text, key.members.as_slice())?;
    text.word("];\n")
}

#[tactic(auto, unfolding(crate::specs::Canonical::interface_text))]
fn put_interface(
    text: &mut TextBuffer,
    schema: &Schema,
    i: &InterfaceDesc,
) -> Result<(), AllocError>
    ensures { OnOk result (text.new ≡ text.old ++ interface_text schema.now i.now) }
{
    open(text, "interface", &i.name)?;
    put_funcs(text, schema, &i.module, i.funcs.as_slice())?;
    close(text)
}

/// Adds a declaration.
#[tactic(auto, unfolding(crate::specs::Canonical::decl_text))]
pub(crate) fn put_decl(text: &mut TextBuffer, schema: &Schema, decl: Decl) -> Result<(), AllocError>
    ensures { OnOk result (text.new ≡ text.old ++ decl_text schema.now decl) }
{
    match decl {
        Decl::Struct(k) => match schema.structs().get(k as usize) {
            Some(s) => put_struct(text, schema, s),
            None => Ok(()),
        },
        Decl::Enum(k) => match schema.enums().get(k as usize) {
            Some(e) => put_enum(text, e),
            None => Ok(()),
        },
        Decl::Const(k) => match schema.consts().get(k as usize) {
            Some(c) => put_const(text, schema, c),
            None => Ok(()),
        },
        Decl::Key(k) => match schema.keys().get(k as usize) {
            Some(key) => put_key(text, schema, key),
            None => Ok(()),
        },
        Decl::Interface(k) => match schema.interfaces().get(k as usize) {
            Some(i) => put_interface(text, schema, i),
            None => Ok(()),
        },
    }
}

fn struct_home(schema: &Schema, number: u32) -> &[u8]
    ensures { result.now ≡ struct_home (slice_get schema.now.structs number) }
{
    match schema.structs().get(number as usize) {
        Some(s) => s.module.as_slice(),
        None => &[],
    }
}

/// The module in which a declaration stands.
pub(crate) fn home_of(schema: &Schema, decl: Decl) -> &[u8]
    ensures { result.now ≡ decl_home schema.now decl }
{
    match decl {
        Decl::Struct(k) => struct_home(schema, k),
        Decl::Enum(k) => match schema.enums().get(k as usize) {
            Some(e) => e.module.as_slice(),
            None => &[],
        },
        Decl::Const(k) => match schema.consts().get(k as usize) {
            Some(c) => c.module.as_slice(),
            None => &[],
        },
        Decl::Key(k) => match schema.keys().get(k as usize) {
            Some(key) => struct_home(schema, key.of),
            None => &[],
        },
        Decl::Interface(k) => match schema.interfaces().get(k as usize) {
            Some(i) => i.module.as_slice(),
            None => &[],
        },
    }
}

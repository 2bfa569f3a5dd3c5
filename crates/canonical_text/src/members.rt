//! The lines of structs and enums.

ghost use Rattle.std.specs.Prelude.{◌≡◌, ◌++◌, OnOk};
ghost use Rattle.std.specs.List.{flat_map};
ghost use Rattle.canonical_text.specs.Canonical.{requirement_word, default_text, member_line, item_line};

use crate::literals::{is_absent, put_literal};
use crate::types::put_type;
use std::alloc::AllocError;
use tars_model::{Item, Member, Schema};
use text_buffer::TextBuffer;

fn requirement_word(require: bool) -> &'static str
    ensures { result.now ≡ requirement_word require }
{
    if require { "require" } else { "optional" }
}

#[tactic(auto, unfolding(crate::specs::Canonical::default_text))]
fn put_default(text: &mut TextBuffer, schema: &Schema, member: &Member) -> Result<(), AllocError>
    ensures { OnOk result (text.new ≡ text.old ++ default_text schema.now member.now) }
{
    if is_absent(schema, &member.ty, &member.default) {
        return Ok(());
    }
    text.word(" = ")?;
    put_literal(text, &member.default)
}

#[tactic(auto, unfolding(crate::specs::Canonical::member_line))]
fn put_member(
    text: &mut TextBuffer,
    schema: &Schema,
    home: &[u8],
    member: &Member,
) -> Result<(), AllocError>
    ensures { OnOk result (text.new ≡ text.old ++ member_line schema.now home.now member.now) }
{
    text.word("        ")?;
    text.show(member.tag)?;
    text.word(" ")?;
    text.word(requirement_word(member.require))?;
    text.word(" ")?;
    put_type(&member.ty, text, schema, home)?;
    text.word(" ")?;
    text.put(&member.name)?;
    put_default(text, schema, member)?;
    text.word(";\n")
}

pub(crate) fn put_members(
    text: &mut TextBuffer,
    schema: &Schema,
    home: &[u8],
    members: &[Member],
) -> Result<(), AllocError>
    ensures { OnOk result (text.new ≡ text.old ++ flat_map (member_line schema.now home.now) members.now) }
{
    for member in members {
        put_member(text, schema, home, member)?;
    }
    Ok(())
}

#[tactic(auto, unfolding(crate::specs::Canonical::item_line))]
fn put_item(text: &mut TextBuffer, item: &Item) -> Result<(), AllocError>
    ensures { OnOk result (text.new ≡ text.old ++ item_line item.now) }
{
    text.word("        ")?;
    text.put(&item.name)?;
    text.word(" = ")?;
    text.show(item.number)?;
    text.word(",\n")
}

pub(crate) fn put_items(text: &mut TextBuffer, items: &[Item]) -> Result<(), AllocError>
    ensures { OnOk result (text.new ≡ text.old ++ flat_map item_line items.now) }
{
    for item in items {
        put_item(text, item)?;
    }
    Ok(())
}

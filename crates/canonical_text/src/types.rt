//! Types and the names in them, as they are written in a module.

ghost use Rattle.std.specs.Prelude.{◌≡◌, ◌++◌, slice_get, OnOk};
ghost use Rattle.tars_model.specs.declared.ty.Ty.{out-Ty};
ghost use Rattle.canonical_text.specs.Canonical.{name_text, struct_name, enum_name, type_word, type_text};

use std::alloc::AllocError;
use tars_model::{Schema, Ty};
use text_buffer::TextBuffer;

#[tactic(auto, unfolding(crate::specs::Canonical::name_text))]
fn put_name(text: &mut TextBuffer, home: &[u8], own: &[u8], name: &[u8]) -> Result<(), AllocError>
    ensures { OnOk result (text.new ≡ text.old ++ name_text home.now own.now name.now) }
{
    if own == home {
        return text.put(name);
    }
    text.put(own)?;
    text.word("::")?;
    text.put(name)
}

#[tactic(auto, unfolding(crate::specs::Canonical::struct_name))]
fn put_struct_name(
    text: &mut TextBuffer,
    schema: &Schema,
    home: &[u8],
    number: u32,
) -> Result<(), AllocError>
    ensures { OnOk result (text.new ≡ text.old ++ struct_name home.now (slice_get schema.now.structs number)) }
{
    match schema.structs().get(number as usize) {
        Some(s) => put_name(text, home, &s.module, &s.name),
        None => Ok(()),
    }
}

#[tactic(auto, unfolding(crate::specs::Canonical::enum_name))]
fn put_enum_name(
    text: &mut TextBuffer,
    schema: &Schema,
    home: &[u8],
    number: u32,
) -> Result<(), AllocError>
    ensures { OnOk result (text.new ≡ text.old ++ enum_name home.now (slice_get schema.now.enums number)) }
{
    match schema.enums().get(number as usize) {
        Some(e) => put_name(text, home, &e.module, &e.name),
        None => Ok(()),
    }
}

/// The word of a type that is one, and nothing for others.
fn type_word(ty: &Ty) -> &'static str
    ensures { result.now ≡ type_word (out-Ty ty.now) }
{
    match ty {
        Ty::Bool => "bool",
        Ty::Byte => "byte",
        Ty::Short => "short",
        Ty::Int => "int",
        Ty::Long => "long",
        Ty::UByte => "unsigned byte",
        Ty::UShort => "unsigned short",
        Ty::UInt => "unsigned int",
        Ty::Text => "string",
        _ => "",
    }
}

/// Adds a type as it is written in the module `home`.
#[tactic(auto, unfolding(crate::specs::Canonical::type_text))]
pub(crate) fn put_type(
    ty: &Ty,
    text: &mut TextBuffer,
    schema: &Schema,
    home: &[u8],
) -> Result<(), AllocError>
    ensures { OnOk result (text.new ≡ text.old ++ type_text schema.now home.now ty.now) }
{
    match ty {
        Ty::Enum(number) => put_enum_name(text, schema, home, *number),
        Ty::Struct(number) => put_struct_name(text, schema, home, *number),
        Ty::Vector(of) => {
            text.word("vector<")?;
            put_type(of.get(), text, schema, home)?;
            text.word(">")
        }
        Ty::Map(key, to) => {
            text.word("map<")?;
            put_type(key.get(), text, schema, home)?;
            text.word(", ")?;
            put_type(to.get(), text, schema, home)?;
            text.word(">")
        }
        _ => text.word(type_word(ty)),
    }
}

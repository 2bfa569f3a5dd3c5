//! Structs, constants, keys and interfaces as the schema has them.

ghost use Rattle.std.specs.Prelude.{◌≡◌, map, IfOk};
ghost use Rattle.std.specs.List.{All};
ghost use Rattle.idl_parse.specs.TreeSpans.{NameIn, TypedIn, LiteralIn, FuncIn};
ghost use Rattle.idl_scene.specs.Items.{word};
ghost use Rattle.idl_schema.specs.Reading.{LiteralLong, MemberReads};
ghost use Rattle.idl_schema.specs.SchemaOf as spec;

use crate::functions::funcs;
use crate::literals::literal_value;
use crate::members::members_of;
use crate::place::Place;
use crate::types::resolved;
use idl_lex::Span;
use idl_parse::tree::{ConstTree, InterfaceTree, KeyTree, StructTree};
use std::alloc::{AllocError, Global};
use tars_model::{ConstDesc, InterfaceDesc, KeyDesc, List, Name, StructDesc};

pub(crate) fn struct_desc(
    alloc: Global,
    place: &Place<'_, '_>,
    tree: &StructTree,
) -> Result<StructDesc, AllocError>
    requires name { NameIn place.now.text tree.now.name }
    requires members { All (MemberReads place.now.text) tree.now.members }
    ensures { IfOk result (λ s. s ≡ spec.struct_of place.now tree.now) }
{
    let module = Name::from_slice(alloc, place.home)?;
    let name = Name::from_slice(alloc, place.word(tree.name))?;
    let members = members_of(alloc, place, tree.members.as_slice())?;
    Ok(StructDesc {
        module,
        name,
        members,
    })
}

pub(crate) fn const_desc(
    alloc: Global,
    place: &Place<'_, '_>,
    tree: &ConstTree,
) -> Result<ConstDesc, AllocError>
    requires typed { TypedIn place.now.text tree.now.typed }
    requires value { LiteralIn place.now.text tree.now.value }
    requires long { LiteralLong place.now.text tree.now.value }
    ensures { IfOk result (λ c. c ≡ spec.const_of place.now tree.now) }
{
    let module = Name::from_slice(alloc, place.home)?;
    let name = Name::from_slice(alloc, place.word(tree.typed.name))?;
    let ty = resolved(alloc, place, &tree.typed.ty)?;
    let value = literal_value(alloc, place, &ty, tree.value)?;
    Ok(ConstDesc {
        module,
        name,
        ty,
        value,
    })
}

fn names(alloc: Global, place: &Place<'_, '_>, spans: &[Span]) -> Result<List<Name>, AllocError>
    requires { All (NameIn place.now.text) spans.now }
    ensures { IfOk result (λ names. names ≡ map (word place.now.text) spans.now) }
{
    let mut names = List::new(alloc);
    for span in spans {
        names.push(Name::from_slice(alloc, place.word(*span))?)?;
    }
    Ok(names)
}

pub(crate) fn key_desc(
    alloc: Global,
    place: &Place<'_, '_>,
    tree: &KeyTree,
) -> Result<KeyDesc, AllocError>
    requires name { NameIn place.now.text tree.now.struct_name }
    requires members { All (NameIn place.now.text) tree.now.members }
    ensures { IfOk result (λ k. k ≡ spec.key_of place.now tree.now) }
{
    let members = names(alloc, place, tree.members.as_slice())?;
    let of = match place.struct_number(place.home, place.word(tree.struct_name)) {
        Some(number) => number,
        None => 0,
    };
    Ok(KeyDesc { of, members })
}

pub(crate) fn interface_desc(
    alloc: Global,
    place: &Place<'_, '_>,
    tree: &InterfaceTree,
) -> Result<InterfaceDesc, AllocError>
    requires name { NameIn place.now.text tree.now.name }
    requires funcs { All (FuncIn place.now.text) tree.now.funcs }
    ensures { IfOk result (λ i. i ≡ spec.interface_of place.now tree.now) }
{
    let module = Name::from_slice(alloc, place.home)?;
    let name = Name::from_slice(alloc, place.word(tree.name))?;
    let funcs = funcs(alloc, place, tree.funcs.as_slice())?;
    Ok(InterfaceDesc {
        module,
        name,
        funcs,
    })
}

//! Enums as the schema has them.

ghost use Rattle.std.specs.Prelude.{◌≡◌, ◌+ℤ◌, pos, [], ◌∷◌, true, IfOk};
ghost use Rattle.std.specs.List.{All, AllByRecursion};
ghost use Rattle.tars_model.specs.Values.{is_signed};
ghost use Rattle.tars_model.specs.declared.enum_desc.Item.{Item as Made};
ghost use Rattle.idl_parse.specs.TreeSpans.{IfThere, NameIn, NumberIn, ItemIn};
ghost use Rattle.idl_scene.specs.Literals.{number_at};
ghost use Rattle.idl_schema.specs.SchemaOf as spec;

use crate::literals::number;
use crate::place::Place;
use idl_lex::Span;
use idl_parse::tree::{EnumItem, EnumTree};
use std::alloc::{AllocError, Global};
use tars_model::{EnumDesc, Item, List, Name};

/// The number that is written, or else the one that is next.
fn number_at(place: &Place<'_, '_>, next: i64, written: Option<Span>) -> i32
    requires at { IfThere (NumberIn place.now.text) written }
    requires int { is_signed 31 (number_at place.now.text next written) ≡ true }
    ensures { result ≡ number_at place.now.text next written }
{
    match written {
        Some(span) => number(place.text, span) as i32,
        None => next as i32,
    }
}

/// The number after this one.
fn after(number: i32) -> i64
    ensures { result ≡ number +ℤ pos 1 }
{
    i64::from(number) + 1
}

/// The enumerators of an enum.
fn enumerators(
    alloc: Global,
    place: &Place<'_, '_>,
    trees: &[EnumItem],
) -> Result<List<Item>, AllocError>
    requires inside { All (ItemIn place.now.text) trees.now }
    requires ints { AllByRecursion (λ (i : Made). is_signed 31 i.number ≡ true) (spec.items_after place.now.text [] trees.now) }
    ensures { IfOk result (λ items. items ≡ spec.items_after place.now.text [] trees.now) }
{
    let mut items = List::new(alloc);
    let mut next = 0;
    for tree in trees {
        let name = Name::from_slice(alloc, place.word(tree.name))?;
        let number = number_at(place, next, tree.number);
        items.push(Item { name, number })?;
        next = after(number);
    }
    Ok(items)
}

pub(crate) fn enum_desc(
    alloc: Global,
    place: &Place<'_, '_>,
    tree: &EnumTree,
) -> Result<EnumDesc, AllocError>
    requires name { NameIn place.now.text tree.now.name }
    requires items { All (ItemIn place.now.text) tree.now.items }
    requires ints { AllByRecursion (λ (i : Made). is_signed 31 i.number ≡ true) (spec.items_after place.now.text [] tree.now.items) }
    ensures { IfOk result (λ e. e ≡ spec.enum_of place.now tree.now) }
{
    let module = Name::from_slice(alloc, place.home)?;
    let name = Name::from_slice(alloc, place.word(tree.name))?;
    let items = enumerators(alloc, place, tree.items.as_slice())?;
    Ok(EnumDesc {
        module,
        name,
        items,
    })
}

//! Declarations that are added to a schema.

ghost use Rattle.std.specs.Prelude.{◌≡◌, ◌<◌, ◌≤◌, ◌^◌, length, OnOk};
ghost use Rattle.idl_parse.specs.declared.tree.decl.DeclTree.TheVariants as decls;
ghost use Rattle.idl_schema.specs.Faultless.{CanAdd};
ghost use Rattle.idl_schema.specs.Naming.{IsNamed};
ghost use Rattle.idl_schema.specs.SchemaOf.{with_decl, place_of};

use crate::building::Building;
use crate::descriptors::{const_desc, interface_desc, key_desc, struct_desc};
use crate::enums::enum_desc;
use crate::place::Place;
use idl_parse::tree::{ConstTree, DeclTree, EnumTree, InterfaceTree, KeyTree, StructTree};
use std::alloc::{AllocError, Global};

/// The place of what is declared next.
fn place<'s, 'a>(building: &'s Building<'a>, text: &'a [u8], home: &'a [u8]) -> Place<'s, 'a>
    requires structs { length building.now.schema.structs ≤ 1024 }
    requires enums { length building.now.schema.enums ≤ 1024 }
    requires named { IsNamed building.now }
    ensures { result ≡ place_of building.now.schema text.now home.now }
{
    Place {
        building,
        text,
        home,
    }
}

fn add_struct<'a>(
    alloc: Global,
    building: &mut Building<'a>,
    text: &'a [u8],
    home: &'a [u8],
    tree: &StructTree,
) -> Result<(), AllocError>
    requires can { CanAdd building.old.schema text.now home.now (decls.Struct tree.now) }
    requires named { IsNamed building.old }
    ensures made { OnOk result (building.new.schema ≡ with_decl (place_of building.old.schema text.now home.now) (decls.Struct tree.now)) }
    ensures named { OnOk result (IsNamed building.new) }
{
    let desc = struct_desc(alloc, &place(building, text, home), tree)?;
    building.structs.add(home, tree.name.slice(text))?;
    building.schema.add_struct(desc)?;
    Ok(())
}

fn add_enum<'a>(
    alloc: Global,
    building: &mut Building<'a>,
    text: &'a [u8],
    home: &'a [u8],
    tree: &EnumTree,
) -> Result<(), AllocError>
    requires can { CanAdd building.old.schema text.now home.now (decls.Enum tree.now) }
    requires named { IsNamed building.old }
    ensures made { OnOk result (building.new.schema ≡ with_decl (place_of building.old.schema text.now home.now) (decls.Enum tree.now)) }
    ensures named { OnOk result (IsNamed building.new) }
{
    let desc = enum_desc(alloc, &place(building, text, home), tree)?;
    building.enums.add(home, tree.name.slice(text))?;
    building.schema.add_enum(desc)?;
    Ok(())
}

fn add_const<'a>(
    alloc: Global,
    building: &mut Building<'a>,
    text: &'a [u8],
    home: &'a [u8],
    tree: &ConstTree,
) -> Result<(), AllocError>
    requires can { CanAdd building.old.schema text.now home.now (decls.Const tree.now) }
    requires named { IsNamed building.old }
    ensures made { OnOk result (building.new.schema ≡ with_decl (place_of building.old.schema text.now home.now) (decls.Const tree.now)) }
    ensures named { OnOk result (IsNamed building.new) }
{
    let desc = const_desc(alloc, &place(building, text, home), tree)?;
    building.schema.add_const(desc)?;
    Ok(())
}

fn add_key<'a>(
    alloc: Global,
    building: &mut Building<'a>,
    text: &'a [u8],
    home: &'a [u8],
    tree: &KeyTree,
) -> Result<(), AllocError>
    requires can { CanAdd building.old.schema text.now home.now (decls.Key tree.now) }
    // A schema numbers its keys by 32 bits.
    requires few { length building.old.schema.keys < 2 ^ 32 }
    requires named { IsNamed building.old }
    ensures made { OnOk result (building.new.schema ≡ with_decl (place_of building.old.schema text.now home.now) (decls.Key tree.now)) }
    ensures named { OnOk result (IsNamed building.new) }
{
    let desc = key_desc(alloc, &place(building, text, home), tree)?;
    building.schema.add_key(desc)?;
    Ok(())
}

fn add_interface<'a>(
    alloc: Global,
    building: &mut Building<'a>,
    text: &'a [u8],
    home: &'a [u8],
    tree: &InterfaceTree,
) -> Result<(), AllocError>
    requires can { CanAdd building.old.schema text.now home.now (decls.Interface tree.now) }
    requires named { IsNamed building.old }
    ensures made { OnOk result (building.new.schema ≡ with_decl (place_of building.old.schema text.now home.now) (decls.Interface tree.now)) }
    ensures named { OnOk result (IsNamed building.new) }
{
    let desc = interface_desc(alloc, &place(building, text, home), tree)?;
    building.schema.add_interface(desc)?;
    Ok(())
}

/// Adds a declaration.
pub(crate) fn add_decl<'a>(
    alloc: Global,
    building: &mut Building<'a>,
    text: &'a [u8],
    home: &'a [u8],
    decl: &DeclTree,
) -> Result<(), AllocError>
    requires can { CanAdd building.old.schema text.now home.now decl.now }
    requires few { length building.old.schema.keys < 2 ^ 32 }
    requires named { IsNamed building.old }
    ensures made { OnOk result (building.new.schema ≡ with_decl (place_of building.old.schema text.now home.now) decl.now) }
    ensures named { OnOk result (IsNamed building.new) }
{
    match decl {
        DeclTree::Struct(tree) => add_struct(alloc, building, text, home, tree),
        DeclTree::Enum(tree) => add_enum(alloc, building, text, home, tree),
        DeclTree::Const(tree) => add_const(alloc, building, text, home, tree),
        DeclTree::Key(tree) => add_key(alloc, building, text, home, tree),
        DeclTree::Interface(tree) => add_interface(alloc, building, text, home, tree),
    }
}

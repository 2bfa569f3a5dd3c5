//! The walk over files, blocks and declarations.

ghost use Rattle.std.specs.Prelude.{◌≡◌, ◌∷◌, ◌<◌, ◌+◌, ◌^◌, [], length, List as Listed, IfOk, OnOk};
ghost use Rattle.idl_parse.specs.declared.tree.module.Entry.{Entry as EntryTree};
ghost use Rattle.idl_rules.specs.Conditions.{faults_of};
ghost use Rattle.idl_schema.specs.Faultless.{CanAddAll, entry_decls, decl_count, with_decls, with_entry, with_entries, CanAddEntries};
ghost use Rattle.idl_schema.specs.Lengths.{total_length};
ghost use Rattle.idl_schema.specs.Naming.{IsNamed};
ghost use Rattle.idl_schema.specs.SchemaOf.{schema_of};

use crate::adding::add_decl;
use crate::building::Building;
use idl_parse::Ast;
use idl_parse::tree::{DeclTree, Entry};
use std::alloc::{AllocError, Global};
use tars_model::Schema;

/// Adds the declarations of a block.
fn add_decls<'a>(
    alloc: Global,
    building: &mut Building<'a>,
    text: &'a [u8],
    home: &'a [u8],
    decls: &[DeclTree],
) -> Result<(), AllocError>
    requires can { CanAddAll building.old.schema text.now home.now decls.now }
    requires few { length building.old.schema.keys + length decls.now < 2 ^ 32 }
    requires named { IsNamed building.old }
    ensures made { OnOk result (building.new.schema ≡ with_decls text.now home.now building.old.schema decls.now) }
    ensures named { OnOk result (IsNamed building.new) }
{
    for decl in decls {
        add_decl(alloc, building, text, home, decl)?;
    }
    Ok(())
}

/// Adds what a block declares; an include declares nothing.
fn add_entry<'a>(
    alloc: Global,
    building: &mut Building<'a>,
    text: &'a [u8],
    entry: &Entry,
) -> Result<(), AllocError>
    requires can { (later : Listed EntryTree) × CanAddEntries building.old.schema text.now (entry.now ∷ later) }
    requires few { length building.old.schema.keys + entry_decls entry.now < 2 ^ 32 }
    requires named { IsNamed building.old }
    ensures made { OnOk result (building.new.schema ≡ with_entry text.now building.old.schema entry.now) }
    ensures named { OnOk result (IsNamed building.new) }
{
    match entry {
        Entry::Include(_) => Ok(()),
        Entry::Module(block) => add_decls(
            alloc,
            building,
            text,
            block.name.slice(text),
            block.decls.as_slice(),
        ),
    }
}

/// Adds what the entries of a file declare.
fn add_entries<'a>(
    alloc: Global,
    building: &mut Building<'a>,
    text: &'a [u8],
    entries: &[Entry],
) -> Result<(), AllocError>
    requires can { CanAddEntries building.old.schema text.now entries.now }
    requires few { length building.old.schema.keys + decl_count entries.now < 2 ^ 32 }
    requires named { IsNamed building.old }
    ensures made { OnOk result (building.new.schema ≡ with_entries text.now building.old.schema entries.now) }
    ensures named { OnOk result (IsNamed building.new) }
{
    for entry in entries {
        add_entry(alloc, building, text, entry)?;
    }
    Ok(())
}

/// The schema of files that have no fault.
pub fn build(alloc: Global, files: &[Ast]) -> Result<Schema, AllocError>
    requires faultless { faults_of files.now ≡ [] }
    // A schema numbers its keys by 32 bits, and a key takes more than one byte.
    requires short { total_length files.now < 2 ^ 32 }
    ensures { IfOk result (λ schema. schema ≡ schema_of files.now) }
{
    let mut building = Building::new(alloc);
    for file in files {
        add_entries(alloc, &mut building, file.text(), file.entries())?;
    }
    Ok(building.schema)
}

//! Interface files, with those that they include, as a schema (docs/IDL.md, "Loading", "Rules" and "Schemas").

ghost use Rattle.std.specs.Prelude.{◌≡◌};
ghost use Rattle.schema_files.specs.LoadAnswers.{IsSchemaAnswered};
ghost use Rattle.schema_files.specs.LoadSteps.{IsNotLoaded, IsNotChecked};
ghost use Rattle.schema_files.specs.SchemaLoading.{name_at};
ghost use Rattle.tars_base.specs.Causes.{HasCauseOf};
ghost use Rattle.tars_base.specs.Contents.{Contents as Told, AreTold};

use crate::refused_text::refused;
use crate::{LoadFault, TextFault};
use idl_check::{CheckFault, check};
use idl_load::{FilesFault, load_files};
use idl_parse::Ast;
use std::alloc::Global;
use tars_base::Files;
use tars_model::Schema;

fn not_loaded(alloc: Global, fault: FilesFault) -> LoadFault
    ensures { IsNotLoaded fault result }
{
    match fault {
        FilesFault::Refused { file, fault } => refused(alloc, &file, TextFault::from(fault)),
        FilesFault::Read => LoadFault::Read,
        FilesFault::Memory => LoadFault::Memory,
    }
}

/// The name of the file of a number.
fn name_of(files: &[Ast], number: u32) -> &[u8]
    ensures { result.now ≡ name_at files.now number }
{
    match files.get(number as usize) {
        Some(file) => file.name(),
        None => &[],
    }
}

fn not_checked(alloc: Global, files: &[Ast], fault: CheckFault) -> LoadFault
    ensures { IsNotChecked files.now fault result }
{
    match fault {
        CheckFault::Bad { file, at, why } => {
            refused(alloc, name_of(files, file), TextFault::of_rule(at, why))
        }
        CheckFault::Memory => LoadFault::Memory,
    }
}

/// The schema of an interface file and of those that it includes.
pub fn load_schema<F: Files>(alloc: Global, files: &mut F, name: &str) -> Result<Schema, LoadFault>
    // This is returned for some contents, which are those of the files where these are told, and nothing else.
    ensures exact { (seen : Told) × AreTold (F.contents files.old) seen × IsSchemaAnswered seen name.now result }
    ensures same { F.contents files.new ≡ F.contents files.old }
    ensures cause { HasCauseOf LoadFault.Read (F.faults files.old) (F.faults files.new) result }
{
    let found = match load_files(alloc, files, name) {
        Ok(found) => found,
        Err(fault) => return Err(not_loaded(alloc, fault)),
    };
    match check(alloc, found.as_slice()) {
        Ok(schema) => Ok(schema),
        Err(fault) => Err(not_checked(alloc, found.as_slice(), fault)),
    }
}

//! A struct that an interface file declares.

ghost use Rattle.std.specs.Prelude.{◌≡◌, ◌<◌, length, position, IfSome};
ghost use Rattle.idl_schema.specs.SchemaOf.{struct_number};
ghost use Rattle.struct_files.specs.Steps.{is_struct, IsFound};
ghost use Rattle.tars_base.specs.Causes.{HasCauseOf};
ghost use Rattle.tars_base.specs.Contents.{Contents as Told, AreTold};

use schema_files::{LoadFault, Stage, TextFault, load_schema, refused};
use std::alloc::Global;
use tars_base::Files;
use tars_model::{Schema, StructDesc, StructName};

/// What is declared, and the number of a struct there.
#[derive(Drop)]
pub(crate) struct Found {
    pub schema: Schema,
    pub number: u32,
}

/// What refuses an interface file that does not declare the struct.
const UNKNOWN_STRUCT: TextFault = TextFault {
    stage: Stage::Struct,
    number: 1,
    offset: 0,
};

/// The place of the first struct of that module and name.
fn place_of(structs: &[StructDesc], home: &[u8], name: &[u8]) -> Option<usize>
    ensures place { result ≡ position (is_struct home.now name.now) structs.now }
    ensures within { IfSome result (λ place. place < length structs.now) }
{
    structs.iter().position(|s| home == s.module.as_slice() && name == s.name.as_slice())
}

/// The number of the struct of that module and name.
fn number_of(schema: &Schema, home: &[u8], name: &[u8]) -> Option<u32>
    ensures { result ≡ struct_number schema.now home.now name.now }
{
    // By its rules a schema has at most 1,024 structs.
    let _ = schema.order();
    let place = place_of(schema.structs(), home, name)?;
    Some(place as u32)
}

/// Loads the interface file, and finds the struct.
pub(crate) fn find_struct<F: Files>(
    alloc: Global,
    files: &mut F,
    file: &str,
    of: StructName,
) -> Result<Found, LoadFault>
    ensures exact { (seen : Told) × AreTold (F.contents files.old) seen
        × IsFound seen file.now of.entry.module.now of.entry.name.now result }
    ensures same { F.contents files.new ≡ F.contents files.old }
    ensures cause { HasCauseOf LoadFault.Read (F.faults files.old) (F.faults files.new) result }
{
    let schema = load_schema(alloc, files, file)?;
    let Some(number) = number_of(&schema, of.module, of.name) else {
        return Err(refused(alloc, file.as_bytes(), UNKNOWN_STRUCT));
    };
    Ok(Found { schema, number })
}

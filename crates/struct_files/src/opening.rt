//! The files of a command: an interface file, and one with the values of a struct that it declares.

ghost use Rattle.std.specs.Prelude.{◌≡◌, ◌≤◌, IfOk, vec_len};
ghost use Rattle.struct_files.specs.Steps.{IsOpened};
ghost use Rattle.tars_base.specs.Causes.{HasCauseOf};
ghost use Rattle.tars_base.specs.Contents.{Held, IsHeld};
ghost use Rattle.tars_base.specs.Limits.{MAX_FILE as longest};

use crate::finding::{Found, find_struct};
use schema_files::{LoadFault, read_file};
use std::alloc::Global;
use tars_base::Files;
use tars_model::{Schema, StructName};

/// What is declared, the number of a struct there, and the text of a file with its values.
#[derive(Drop)]
pub(crate) struct Opened {
    pub schema: Schema,
    pub number: u32,
    pub text: Vec<u8>,
}

/// Finds the struct in the interface file, and reads the file with its values then.
pub(crate) fn open<F: Files>(
    alloc: Global,
    files: &mut F,
    file: &str,
    of: StructName,
    values: &str,
) -> Result<Opened, LoadFault>
    ensures exact { (held : Held) × IsHeld (F.contents files.old) held
        × IsOpened held file.now of.entry.module.now of.entry.name.now values.now result }
    ensures within { IfOk result (λ opened. vec_len opened.text ≤ longest) }
    ensures same { F.contents files.new ≡ F.contents files.old }
    ensures cause { HasCauseOf LoadFault.Read (F.faults files.old) (F.faults files.new) result }
{
    let found = find_struct(alloc, files, file, of)?;
    let text = read_file(alloc, files, values)?;
    let Found { schema, number } = found;
    Ok(Opened {
        schema,
        number,
        text,
    })
}

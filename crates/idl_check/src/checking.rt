ghost use Rattle.std.specs.Prelude.{◌<◌, ◌^◌, length};
ghost use Rattle.idl_check.specs.Checked.{IsChecked};
ghost use Rattle.idl_schema.specs.Lengths.{total_length};

use crate::check_fault::CheckFault;
use idl_parse::Ast;
use idl_rules::{Fault, first_fault};
use idl_schema::build;
use std::alloc::Global;
use tars_model::Schema;

/// The schema of interface files, each of which stands after those that it includes, or their first fault.
pub fn check(alloc: Global, files: &[Ast]) -> Result<Schema, CheckFault>
    requires few { length files.now < 2 ^ 32 }
    // A schema numbers its keys by 32 bits, and a key takes more than one byte.
    requires short { total_length files.now < 2 ^ 32 }
    ensures { IsChecked files.now result }
{
    if let Some(Fault { file, at, why }) = first_fault(alloc, files)? {
        return Err(CheckFault::Bad { file, at, why });
    }
    Ok(build(alloc, files)?)
}

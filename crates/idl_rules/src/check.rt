ghost use Rattle.std.specs.Prelude.{◌≡◌, ◌<◌, ◌^◌, [], length, IfOk, MatchOption};
ghost use Rattle.least_fault.specs.Least.{IsLeast};
ghost use Rattle.idl_scene.specs.Faults.{is_below};
ghost use Rattle.idl_rules.specs.Conditions.{faults_of};

use crate::walk::Walk;
use idl_parse::Ast;
use idl_scene::Fault;
use std::alloc::{AllocError, Global};

/// The first fault of interface files, each of which stands after those that it includes (docs/IDL.md, "Rules").
pub fn first_fault(alloc: Global, files: &[Ast]) -> Result<Option<Fault>, AllocError>
    requires { length files.now < 2 ^ 32 }
    // The files have no fault, or this is the least of all.
    ensures { IfOk result (λ found. MatchOption found (faults_of files.now ≡ []) (IsLeast is_below (faults_of files.now))) }
{
    let mut walk = Walk::new(alloc);
    for (number, file) in files.iter().enumerate() {
        walk.file(alloc, number as u32, &files[..number], file)?;
    }
    Ok(walk.least)
}

//! A file that is read whole (docs/SCRIPTS.md, "Loading").

ghost use Rattle.std.specs.Prelude.{◌≡◌, ◌≤◌, IfOk, vec_len};
ghost use Rattle.schema_files.specs.LoadAnswers.{IsFileAnswered};
ghost use Rattle.tars_base.specs.Causes.{HasCauseOf};
ghost use Rattle.tars_base.specs.Contents.{Contents as Told, AreTold};
ghost use Rattle.tars_base.specs.Limits.{MAX_FILE as longest};

use crate::refused_text::refused;
use crate::{LoadFault, TextFault};
use std::alloc::Global;
use tars_base::{Files, MAX_FILE};

/// The bytes of a file. One that is longer than a file may be is read only so far that this shows.
pub fn read_file<F: Files>(alloc: Global, files: &mut F, name: &str) -> Result<Vec<u8>, LoadFault>
    // This is returned for some contents, which are those of the files where these are told, and nothing else.
    ensures exact { (seen : Told) × AreTold (F.contents files.old) seen × IsFileAnswered seen name.now result }
    ensures within { IfOk result (λ bytes. vec_len bytes ≤ longest) }
    ensures same { F.contents files.new ≡ F.contents files.old }
    ensures cause { HasCauseOf LoadFault.Read (F.faults files.old) (F.faults files.new) result }
{
    let bytes = files.read(alloc, name, MAX_FILE + 1)?;
    if bytes.len() > MAX_FILE {
        return Err(refused(alloc, name.as_bytes(), TextFault::TOO_LONG));
    }
    Ok(bytes)
}

//! Loading: a script and its interface files are read and judged (docs/SCRIPTS.md, "Scripts").

ghost use Rattle.std.specs.Prelude.{◌≡◌};
ghost use Rattle.script_load.specs.LoadAnswers.{IsAnswered};
ghost use Rattle.tars_base.specs.Causes.{HasCauseOf};
ghost use Rattle.tars_base.specs.Contents.{Held, IsHeld};

use crate::Mode;
use crate::faults::{no_script, not_judged};
use crate::session::session_of;
use crate::sides::load_sides;
use schema_files::{LoadFault, read_file};
use script_lines::read_script;
use script_session::Loaded;
use std::alloc::Global;
use tars_base::Files;

/// The session of a script that is run at once.
fn load_plan<F: Files>(alloc: Global, files: &mut F, name: &str) -> Result<Loaded, LoadFault>
    ensures exact { (held : Held) × IsHeld (F.contents files.old) held × IsAnswered held name.now result }
    ensures same { F.contents files.new ≡ F.contents files.old }
    ensures cause { HasCauseOf LoadFault.Read (F.faults files.old) (F.faults files.new) result }
{
    let text = read_file(alloc, files, name)?;
    let script = match read_script(alloc, &text) {
        Ok(script) => script,
        Err(refusal) => return Err(no_script(alloc, name, refusal)),
    };
    let sides = load_sides(alloc, files, &script)?;
    match session_of(alloc, sides, &script) {
        Ok(loaded) => Ok(loaded),
        Err(refusal) => Err(not_judged(alloc, name, refusal)),
    }
}

/// The session of the script under this name. A file that is longer than it may be is read only so far that this shows.
pub fn load<F: Files>(
    alloc: Global,
    files: &mut F,
    name: &str,
    mode: Mode,
) -> Result<Loaded, LoadFault>
    // This is returned for what the files held while they were read, which is what they are told to hold where that is
    // told, and nothing else.
    ensures exact { (held : Held) × IsHeld (F.contents files.old) held × IsAnswered held name.now result }
    ensures same { F.contents files.new ≡ F.contents files.old }
    ensures cause { HasCauseOf LoadFault.Read (F.faults files.old) (F.faults files.new) result }
{
    match mode {
        Mode::Plan => load_plan(alloc, files, name),
    }
}

//! The interface files of a script.

ghost use Rattle.std.specs.Prelude.{◌≡◌};
ghost use Rattle.script_lines.specs.Views.{script_of, text_of};
ghost use Rattle.script_load.specs.LoadSteps.{IsServerAnswered, AreSidesAnswered};
ghost use Rattle.tars_base.specs.Causes.{HasCauseOf};
ghost use Rattle.tars_base.specs.Contents.{Contents as Told, AreTold};

use schema_files::{LoadFault, load_schema};
use script_lines::ScriptLines;
use std::alloc::Global;
use tars_base::Files;
use tars_model::Schema;

/// What the interface files of both sides declare.
#[derive(Drop)]
pub struct Sides {
    pub client: Schema,
    pub server: Schema,
}

/// The schema of the server's interface file, where one is named, and else that of the client's.
fn load_server<F: Files>(
    alloc: Global,
    files: &mut F,
    name: Option<&str>,
    client: &Schema,
) -> Result<Schema, LoadFault>
    ensures exact { (later : Told) × AreTold (F.contents files.old) later × IsServerAnswered later client.now (text_of name.entry) result }
    ensures same { F.contents files.new ≡ F.contents files.old }
    ensures cause { HasCauseOf LoadFault.Read (F.faults files.old) (F.faults files.new) result }
{
    match name {
        Some(name) => load_schema(alloc, files, name),
        None => Ok(client.copy(alloc)?),
    }
}

/// The schemas of both sides.
pub fn load_sides<F: Files>(
    alloc: Global,
    files: &mut F,
    script: &ScriptLines<'_>,
) -> Result<Sides, LoadFault>
    // This is returned for what the files held while each was read, and nothing else.
    ensures exact { (first : Told) × (later : Told) × AreTold (F.contents files.old) first × AreTold (F.contents files.old) later
        × AreSidesAnswered first later (script_of script.now) result }
    ensures same { F.contents files.new ≡ F.contents files.old }
    ensures cause { HasCauseOf LoadFault.Read (F.faults files.old) (F.faults files.new) result }
{
    let client = load_schema(alloc, files, script.client)?;
    let server = load_server(alloc, files, script.server, &client)?;
    Ok(Sides { client, server })
}

ghost use Rattle.std.specs.Prelude.{◌≡◌, ◌<◌, ◌^◌, length, true, IfOk};
ghost use Rattle.wire_words.specs.Tree.{WireFields};
ghost use Rattle.tars_model.specs.Values.{fit_members};
ghost use Rattle.tars_model.specs.Schemas.{IsSchema};
ghost use Rattle.tars_wire.specs.Heads.{MAX_DEPTH};
ghost use Rattle.tars_wire.specs.Spelled.{IsBody, Spelled};
ghost use Rattle.tars_decode.specs.Reads.{reads};
ghost use Rattle.tars_decode.specs.Decoding.{MembersFit, Answers, Judges};

mod contents;
mod defaults;
mod scope;
mod texts;
mod vectors;

use crate::halt::{Halt, Refusal};
use crate::refuse::Refuse;
use contents::read_members;
use scope::Scope;
use std::alloc::Global;
use tars_model::{List, Member, Schema, Value};
use tars_wire::scan;

/// One more than how many lists, maps and structs may be opened inside one another.
const ROOM: u8 = 65;

/// The values of members from a body.
fn read_body(
    alloc: Global,
    schema: &Schema,
    members: &[Member],
    bytes: &[u8],
) -> Result<List<Value>, Refuse>
    requires schema { IsSchema schema.now }
    requires members { MembersFit schema.now members.now }
    requires body { IsBody bytes.now }
    ensures reads { (fields : WireFields) → Spelled MAX_DEPTH bytes.now fields → Answers result (reads schema.now members.now fields) }
    ensures fits { IfOk result (λ values. fit_members schema.now members.now values ≡ true) }
{
    let scope = Scope {
        alloc,
        schema,
        room: ROOM,
    };
    match read_members(&scope, members, bytes) {
        Ok((values, _)) => Ok(values),
        Err(Halt::Refused(Refusal::Missing { path })) => Err(Refuse::Missing { path }),
        Err(Halt::Refused(Refusal::Mismatch { path, why })) => Err(Refuse::Mismatch { path, why }),
        Err(Halt::Memory) => Err(Refuse::Memory),
        Err(Halt::Stopped) => unreachable!(),
    }
}

/// The values of members from bytes, or the exact refusal.
pub fn decode(
    alloc: Global,
    schema: &Schema,
    members: &[Member],
    bytes: &[u8],
) -> Result<List<Value>, Refuse>
    requires short { length bytes.now < 2 ^ 32 }
    requires members { MembersFit schema.now members.now }
    // What a body says under the members is what is returned.
    ensures reads { (fields : WireFields) → Spelled MAX_DEPTH bytes.now fields → Answers result (reads schema.now members.now fields) }
    // Bytes are refused as malformed exactly where they are no body, with their fault.
    ensures judged { Judges bytes.now result }
    // Each value is one of its member's type.
    ensures fits { IfOk result (λ values. fit_members schema.now members.now values ≡ true) }
{
    // What a schema declares keeps the rules.
    let _order = schema.order();
    match scan(bytes) {
        Ok(_) => read_body(alloc, schema, members, bytes),
        Err(fault) => Err(Refuse::Malformed(fault)),
    }
}

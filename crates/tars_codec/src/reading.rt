ghost use Rattle.std.specs.Prelude.{◌≡◌, ◌<◌, ◌^◌, ◌++◌, length, true, IfOk, List};
ghost use Rattle.wire_words.specs.Tree.{WireFields};
ghost use Rattle.tars_model.specs.Values.{fit_members};
ghost use Rattle.tars_model.specs.declared.value.Value.{Value as AValue};
ghost use Rattle.tars_wire.specs.Heads.{MAX_DEPTH};
ghost use Rattle.tars_wire.specs.Spelled.{Spelled};
ghost use Rattle.tars_decode.specs.Reads.{reads};
ghost use Rattle.tars_decode.specs.Decoding.{MembersFit, Answers, Judges};
ghost use Rattle.tars_codec.specs.Written.{AreShallow, written};

use std::alloc::Global;
use tars_decode::Refuse;
use tars_model::{List as Listed, Member, Schema, Value};

/// The values of members from bytes, or the exact refusal.
pub fn decode(
    alloc: Global,
    schema: &Schema,
    members: &[Member],
    bytes: &[u8],
) -> Result<Listed<Value>, Refuse>
    requires short { length bytes.now < 2 ^ 32 }
    requires members { MembersFit schema.now members.now }
    // What a body says under the members is what is returned.
    ensures reads { (fields : WireFields) → Spelled MAX_DEPTH bytes.now fields → Answers result (reads schema.now members.now fields) }
    // Bytes are refused as malformed exactly where they are no body, with their fault.
    ensures judged { Judges bytes.now result }
    // Each value is one of its member's type.
    ensures fits { IfOk result (λ values. fit_members schema.now members.now values ≡ true) }
    // What was written for values is read as these values.
    ensures written { (values : List AValue) → fit_members schema.now members.now values ≡ true → AreShallow schema.now members.now
        → bytes.now ≡ written schema.now members.now values → Answers result (Ok values) }
{
    // What a schema declares keeps the rules.
    let _order = schema.order();
    tars_decode::decode(alloc, schema, members, bytes)
}

//! The law of values and calls that a text says.

ghost use Rattle.std.specs.Prelude.{◌≤◌, ◌*◌, ℕ, List, length};
ghost use Rattle.tars_model.specs.Declarations.{Declared};
ghost use Rattle.tars_model.specs.declared.member.Member.{Member};
ghost use Rattle.tars_model.specs.declared.ty.Ty.{Ty};
ghost use Rattle.tars_model.specs.declared.value.Value.{Value};
ghost use Rattle.tars_codec.specs.Spellings.{spelled_value};
ghost use Rattle.tars_codec.specs.Written.{written};
ghost use Rattle.tars_frames.specs.Streams.{LONGEST};
ghost use Rattle.value_text.specs.Spelling.{Spells};
ghost use Rattle.rpc_packet.specs.Packets.{request_frame};
ghost use Rattle.rpc_packet.specs.declared.request.Request.{Request};
ghost use Rattle.script_values.specs.Args.{SaysArgs};
ghost use Rattle.value_lengths.specs.SaidCalls.{GROWTH, IsBounded, IsSaidCall};

/// A call in a script is no longer than a packet may be, whatever its arguments, its id and its timeout.
pub fn calls_are_packets()
    ensures value { (tag : ℕ) (d : Declared) (t : Ty) (v : Value) (text rest : List ℕ) → Spells d t v text rest
        → IsBounded (spelled_value tag d t v) text rest }
    ensures arguments { (d : Declared) (members : List Member) (values : List Value) (text : List ℕ) → SaysArgs d members values text
        → length (written d members values) ≤ GROWTH * length text }
    ensures packet { (d : Declared) (members : List Member) (text : List ℕ) (r : Request) → IsSaidCall d members text r
        → length (request_frame r) ≤ LONGEST }
{}

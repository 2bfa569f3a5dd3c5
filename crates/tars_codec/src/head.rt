//! Heads (docs/PROTOCOL.md, "Heads").

ghost use Rattle.std.specs.Prelude.{◌≡◌, ℕ, ◌≤◌, length};
ghost use Rattle.wire_words.specs.Spelling.{head};
ghost use Rattle.tars_wire.specs.Heads.{code_of};
ghost use Rattle.tars_codec.specs.Rooms.{Adds};

use crate::put::put;
use bytes::BytesMut;
use tars_wire::WireType;

/// From this tag on the tag has a byte of its own, and the first byte's high four bits are this.
const LONG_FORM: u8 = 15;

/// How many bytes the head of a field with the tag has, whatever its type.
#[tactic(auto, unfolding(wire_words::specs::Spelling::head))]
pub fn head_len(tag: u8) -> u64
    ensures value { (code : ℕ) → result ≡ length (head tag code) }
    ensures few { result ≤ 2 }
{
    if tag < LONG_FORM { 1 } else { 2 }
}

#[tactic(auto, unfolding(wire_words::specs::Spelling::head))]
pub fn put_head(out: &mut BytesMut, tag: u8, kind: WireType)
    requires { length (head tag (code_of kind)) ≤ out.old.spare }
    ensures { Adds out.old out.new (head tag (code_of kind)) }
{
    if tag < LONG_FORM {
        put(out, &[tag * 16 + kind.code()]);
    } else {
        put(out, &[LONG_FORM * 16 + kind.code(), tag]);
    }
}

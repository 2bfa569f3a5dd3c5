#![tactic(auto, unfolding(wire_words::specs::Spelling::spelled_number, wire_words::specs::Spelling::two_complement))]

ghost use Rattle.std.specs.Prelude.{◌≤◌, length};
ghost use Rattle.wire_words.specs.Tree.{int1, int2, int4, int8};
ghost use Rattle.wire_words.specs.Spelling.{shortest, spelled_number};
ghost use Rattle.tars_codec.specs.Rooms.{Adds};

use crate::head::put_head;
use crate::put::put;
use bytes::BytesMut;
use tars_wire::WireType;

fn put_i8(out: &mut BytesMut, tag: u8, number: i8)
    requires { length (spelled_number tag (int1 number)) ≤ out.old.spare }
    ensures { Adds out.old out.new (spelled_number tag (int1 number)) }
{
    put_head(out, tag, WireType::Int1);
    put(out, &number.to_be_bytes());
}

fn put_i16(out: &mut BytesMut, tag: u8, number: i16)
    requires { length (spelled_number tag (int2 number)) ≤ out.old.spare }
    ensures { Adds out.old out.new (spelled_number tag (int2 number)) }
{
    put_head(out, tag, WireType::Int2);
    put(out, &number.to_be_bytes());
}

fn put_i32(out: &mut BytesMut, tag: u8, number: i32)
    requires { length (spelled_number tag (int4 number)) ≤ out.old.spare }
    ensures { Adds out.old out.new (spelled_number tag (int4 number)) }
{
    put_head(out, tag, WireType::Int4);
    put(out, &number.to_be_bytes());
}

fn put_i64(out: &mut BytesMut, tag: u8, number: i64)
    requires { length (spelled_number tag (int8 number)) ≤ out.old.spare }
    ensures { Adds out.old out.new (spelled_number tag (int8 number)) }
{
    put_head(out, tag, WireType::Int8);
    put(out, &number.to_be_bytes());
}

/// A whole number, of the shortest kind that holds it.
pub fn put_number(out: &mut BytesMut, tag: u8, number: i64)
    requires { length (spelled_number tag (shortest number)) ≤ out.old.spare }
    ensures { Adds out.old out.new (spelled_number tag (shortest number)) }
{
    if number == 0 {
        put_head(out, tag, WireType::ZeroTag)
    } else if let Ok(number) = i8::try_from(number) {
        put_i8(out, tag, number)
    } else if let Ok(number) = i16::try_from(number) {
        put_i16(out, tag, number)
    } else if let Ok(number) = i32::try_from(number) {
        put_i32(out, tag, number)
    } else {
        put_i64(out, tag, number)
    }
}

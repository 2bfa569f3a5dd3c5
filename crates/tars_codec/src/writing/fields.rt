//! Bools, sizes, texts and simple lists, added to a buffer that has room for them.

ghost use Rattle.std.specs.Prelude.{◌≡◌, ◌<◌, ◌≤◌, ◌^◌, length};
ghost use Rattle.wire_words.specs.Tree.{whole, simple_list};
ghost use Rattle.wire_words.specs.Spelling.{shortest, spelled_size, spelled};
ghost use Rattle.tars_codec.specs.Rooms.{Adds};
ghost use Rattle.tars_codec.specs.Written.{bool_number, wire_text};

use super::numbers::put_number;
use crate::head::put_head;
use crate::put::put;
use bytes::BytesMut;
use tars_wire::WireType;

/// A bool, as the number 0 or 1.
pub fn put_bool(out: &mut BytesMut, tag: u8, value: bool)
    requires { length (spelled tag (whole (shortest (bool_number value)))) ≤ out.old.spare }
    ensures { Adds out.old out.new (spelled tag (whole (shortest (bool_number value)))) }
{
    put_number(out, tag, if value { 1 } else { 0 });
}

/// The size of a simple list, a list or a map.
#[tactic(auto, unfolding(wire_words::specs::Spelling::spelled_size))]
pub fn put_size(out: &mut BytesMut, size: usize)
    requires size { size < 2 ^ 31 }
    requires room { length (spelled_size size) ≤ out.old.spare }
    ensures { Adds out.old out.new (spelled_size size) }
{
    put_number(out, 0, size as i64);
}

/// A text after its length, which takes one byte where it can.
pub fn put_text(out: &mut BytesMut, tag: u8, text: &[u8])
    requires size { length text.now < 2 ^ 32 }
    requires room { length (spelled tag (wire_text text.now)) ≤ out.old.spare }
    ensures { Adds out.old out.new (spelled tag (wire_text text.now)) }
{
    if text.len() <= 255 {
        put_head(out, tag, WireType::String1);
        put(out, &[text.len() as u8]);
    } else {
        put_head(out, tag, WireType::String4);
        put(out, &(text.len() as u32).to_be_bytes());
    }
    put(out, text);
}

/// A simple list of bytes.
pub fn put_blob(out: &mut BytesMut, tag: u8, bytes: &[u8])
    requires size { length bytes.now < 2 ^ 31 }
    requires room { length (spelled tag (simple_list bytes.now)) ≤ out.old.spare }
    ensures { Adds out.old out.new (spelled tag (simple_list bytes.now)) }
{
    put_head(out, tag, WireType::SimpleList);
    put_head(out, 0, WireType::Int1);
    put_size(out, bytes.len());
    put(out, bytes);
}

//! How many bytes numbers, texts and simple lists take as fields.

ghost use Rattle.std.specs.Prelude.{◌≡◌, ◌<◌, ◌≤◌, ◌^◌, length};
ghost use Rattle.wire_words.specs.Tree.{whole, simple_list};
ghost use Rattle.wire_words.specs.Spelling.{shortest, spelled_number, spelled_size, spelled};
ghost use Rattle.tars_decode.specs.Reads.{bytes_of};
ghost use Rattle.tars_codec.specs.Written.{bool_number, wire_text};

use crate::head::head_len;

/// How many bytes a number has after its head, in the shortest kind that holds it.
fn width(number: i64) -> u64
    ensures value { result ≡ bytes_of (shortest number) }
    ensures few { result ≤ 8 }
{
    if number == 0 {
        0
    } else if i8::try_from(number).is_ok() {
        1
    } else if i16::try_from(number).is_ok() {
        2
    } else if i32::try_from(number).is_ok() {
        4
    } else {
        8
    }
}

/// A whole number.
pub fn number_len(tag: u8, number: i64) -> u64
    ensures value { result ≡ length (spelled_number tag (shortest number)) }
    ensures few { result ≤ 10 }
{
    head_len(tag) + width(number)
}

pub fn bool_len(tag: u8, value: bool) -> u64
    ensures { result ≡ length (spelled tag (whole (shortest (bool_number value)))) }
{
    number_len(tag, if value { 1 } else { 0 })
}

/// The size of a simple list, a list or a map.
#[tactic(auto, unfolding(wire_words::specs::Spelling::spelled_size))]
pub fn size_len(size: usize) -> u64
    requires { size < 2 ^ 31 }
    ensures value { result ≡ length (spelled_size size) }
    ensures few { result ≤ 10 }
{
    number_len(0, size as i64)
}

/// A text after its length, which takes one byte where it can.
pub fn text_len(tag: u8, text: &[u8]) -> u64
    requires { length text.now < 2 ^ 32 }
    ensures { result ≡ length (spelled tag (wire_text text.now)) }
{
    let size = if text.len() <= 255 { 1 } else { 4 };
    head_len(tag) + size + text.len() as u64
}

/// A simple list of bytes.
pub fn blob_len(tag: u8, bytes: &[u8]) -> u64
    requires { length bytes.now < 2 ^ 31 }
    ensures { result ≡ length (spelled tag (simple_list bytes.now)) }
{
    head_len(tag) + head_len(0) + size_len(bytes.len()) + bytes.len() as u64
}

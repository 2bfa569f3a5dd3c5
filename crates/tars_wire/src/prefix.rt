//! What bytes begin with: each function returns that piece and the bytes after it, or None where they do not
//! begin so. Nothing is judged here: the scanner does that, and the cursor walks what was judged.

ghost use Rattle.std.specs.Prelude.{◌≡◌, ◌<◌, ◌^◌, IfSome};
ghost use Rattle.std.specs.Int.{w8, w16, w32, w64};
ghost use Rattle.tars_wire.specs.PrefixSteps.{Found, head_prefix, bytes_prefix, unsigned_prefix, signed_prefix, number_prefix, natural, size_prefix, text_prefix, simple_prefix};

use crate::head::{Head, LONG_FORM, halves};
use crate::wire_type::WireType;
use byteorder::{BigEndian, ByteOrder};

/// So many bytes.
#[tactic(auto, unfolding(crate::specs::PrefixSteps::bytes_prefix))]
pub fn split_bytes(count: usize, bytes: &[u8]) -> Option<(&[u8], &[u8])>
    ensures { Found (λ x. (x.0.now, x.1.now)) result (bytes_prefix count bytes.now) }
{
    bytes.split_at_checked(count)
}

#[tactic(auto, unfolding(crate::specs::PrefixSteps::unsigned_prefix, crate::specs::PrefixSteps::bytes_prefix))]
pub fn split_u8(bytes: &[u8]) -> Option<(u8, &[u8])>
    ensures { Found (λ x. (x.0, x.1.now)) result (unsigned_prefix w8 bytes.now) }
{
    let (number, rest) = bytes.split_at_checked(1)?;
    Some((number[0], rest))
}

#[tactic(auto, unfolding(crate::specs::PrefixSteps::unsigned_prefix, crate::specs::PrefixSteps::bytes_prefix))]
pub fn split_u16(bytes: &[u8]) -> Option<(u16, &[u8])>
    ensures { Found (λ x. (x.0, x.1.now)) result (unsigned_prefix w16 bytes.now) }
{
    let (number, rest) = bytes.split_at_checked(2)?;
    Some((BigEndian::read_u16(number), rest))
}

#[tactic(auto, unfolding(crate::specs::PrefixSteps::unsigned_prefix, crate::specs::PrefixSteps::bytes_prefix))]
pub fn split_u32(bytes: &[u8]) -> Option<(u32, &[u8])>
    ensures { Found (λ x. (x.0, x.1.now)) result (unsigned_prefix w32 bytes.now) }
{
    let (number, rest) = bytes.split_at_checked(4)?;
    Some((BigEndian::read_u32(number), rest))
}

#[tactic(auto, unfolding(crate::specs::PrefixSteps::signed_prefix, crate::specs::PrefixSteps::bytes_prefix))]
fn split_i8(bytes: &[u8]) -> Option<(i64, &[u8])>
    ensures { Found (λ x. (x.0, x.1.now)) result (signed_prefix w8 bytes.now) }
{
    let (number, rest) = bytes.split_at_checked(1)?;
    Some((i64::from(number[0].cast_signed()), rest))
}

#[tactic(auto, unfolding(crate::specs::PrefixSteps::signed_prefix, crate::specs::PrefixSteps::bytes_prefix))]
fn split_i16(bytes: &[u8]) -> Option<(i64, &[u8])>
    ensures { Found (λ x. (x.0, x.1.now)) result (signed_prefix w16 bytes.now) }
{
    let (number, rest) = bytes.split_at_checked(2)?;
    Some((i64::from(BigEndian::read_i16(number)), rest))
}

#[tactic(auto, unfolding(crate::specs::PrefixSteps::signed_prefix, crate::specs::PrefixSteps::bytes_prefix))]
fn split_i32(bytes: &[u8]) -> Option<(i64, &[u8])>
    ensures { Found (λ x. (x.0, x.1.now)) result (signed_prefix w32 bytes.now) }
{
    let (number, rest) = bytes.split_at_checked(4)?;
    Some((i64::from(BigEndian::read_i32(number)), rest))
}

#[tactic(auto, unfolding(crate::specs::PrefixSteps::signed_prefix, crate::specs::PrefixSteps::bytes_prefix))]
fn split_i64(bytes: &[u8]) -> Option<(i64, &[u8])>
    ensures { Found (λ x. (x.0, x.1.now)) result (signed_prefix w64 bytes.now) }
{
    let (number, rest) = bytes.split_at_checked(8)?;
    Some((BigEndian::read_i64(number), rest))
}

/// A whole number of a type.
#[tactic(auto, unfolding(crate::specs::PrefixSteps::number_prefix))]
pub fn split_number(kind: WireType, bytes: &[u8]) -> Option<(i64, &[u8])>
    ensures { Found (λ x. (x.0, x.1.now)) result (number_prefix kind bytes.now) }
{
    match kind {
        WireType::ZeroTag => Some((0, bytes)),
        WireType::Int1 => split_i8(bytes),
        WireType::Int2 => split_i16(bytes),
        WireType::Int4 => split_i32(bytes),
        WireType::Int8 => split_i64(bytes),
        _ => None,
    }
}

/// A head in either form.
#[tactic(auto, unfolding(crate::specs::PrefixSteps::head_prefix))]
pub fn split_head(bytes: &[u8]) -> Option<(Head, &[u8])>
    ensures { Found (λ x. (x.0, x.1.now)) result (head_prefix bytes.now) }
{
    let (first, rest) = bytes.split_first()?;
    let (kind, tag) = halves(*first);
    let kind = kind?;
    if tag < LONG_FORM {
        return Some((Head { tag, kind }, rest));
    }
    let (tag, rest) = rest.split_first()?;
    Some((Head { tag: *tag, kind }, rest))
}

/// A number that a size may be.
fn natural(number: i64) -> Option<u32>
    ensures number { result ≡ natural number }
    ensures below { IfSome result (λ size. size < 2 ^ 31) }
{
    match u32::try_from(number) {
        Ok(size) if size < 0x8000_0000 => Some(size),
        _ => None,
    }
}

/// A size: how many bytes, values or pairs follow.
#[tactic(auto, unfolding(crate::specs::PrefixSteps::size_prefix))]
pub fn split_size(bytes: &[u8]) -> Option<(u32, &[u8])>
    ensures size { Found (λ x. (x.0, x.1.now)) result (size_prefix bytes.now) }
    ensures below { IfSome result (λ x. x.0 < 2 ^ 31) }
{
    let (head, rest) = split_head(bytes)?;
    let (number, rest) = split_number(head.kind, rest)?;
    let size = natural(number)?;
    Some((size, rest))
}

/// The bytes of a string.
#[tactic(auto, unfolding(crate::specs::PrefixSteps::text_prefix))]
pub fn split_text(kind: WireType, bytes: &[u8]) -> Option<(&[u8], &[u8])>
    ensures { Found (λ x. (x.0.now, x.1.now)) result (text_prefix kind bytes.now) }
{
    match kind {
        WireType::String1 => {
            let (size, rest) = split_u8(bytes)?;
            split_bytes(usize::from(size), rest)
        }
        WireType::String4 => {
            let (size, rest) = split_u32(bytes)?;
            split_bytes(size as usize, rest)
        }
        _ => None,
    }
}

/// The bytes of a simple list.
#[tactic(auto, unfolding(crate::specs::PrefixSteps::simple_prefix))]
pub fn split_simple(bytes: &[u8]) -> Option<(&[u8], &[u8])>
    ensures { Found (λ x. (x.0.now, x.1.now)) result (simple_prefix bytes.now) }
{
    let (_, rest) = split_head(bytes)?;
    let (size, rest) = split_size(rest)?;
    split_bytes(size as usize, rest)
}

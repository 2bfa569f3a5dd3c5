//! Whole numbers under a type: in how many bytes they may stand, and their range.

ghost use Rattle.std.specs.Prelude.{◌≡◌};
ghost use Rattle.tars_model.specs.declared.ty.Ty.{out-Ty};
ghost use Rattle.tars_decode.specs.Reads.{most_bytes, in_range, number_value, is_within};
ghost use Rattle.tars_decode.specs.ReadingSteps.{Gives, type_bytes, number_at};

use crate::halt::{Halt, Walk, misfit};
use crate::refuse::Misfit;
use std::alloc::Global;
use tars_model::{Ty, Value};
use tars_wire::{WireType, split_number};

/// The most bytes in which a number of the type may stand; None for a type without numbers.
fn most_bytes(ty: &Ty) -> Option<u8>
    ensures { result ≡ most_bytes (out-Ty ty.now) }
{
    match ty {
        Ty::Bool | Ty::Byte => Some(1),
        Ty::Short | Ty::UByte => Some(2),
        Ty::Int | Ty::Enum(_) | Ty::UShort => Some(4),
        Ty::Long | Ty::UInt => Some(8),
        Ty::Text | Ty::Struct(_) | Ty::Vector(_) | Ty::Map(_, _) => None,
    }
}

fn bytes_of(kind: WireType) -> u8
    ensures { result ≡ type_bytes kind }
{
    match kind {
        WireType::Int1 => 1,
        WireType::Int2 => 2,
        WireType::Int4 => 4,
        WireType::Int8 => 8,
        _ => 0,
    }
}

/// Whether the type reads numbers of this kind.
fn takes(ty: &Ty, kind: WireType) -> bool
    ensures { result ≡ is_within (type_bytes kind) (most_bytes (out-Ty ty.now)) }
{
    match most_bytes(ty) {
        Some(most) => bytes_of(kind) <= most,
        None => false,
    }
}

/// Whether the type has the number.
fn in_range(ty: &Ty, number: i64) -> bool
    ensures { result ≡ in_range (out-Ty ty.now) number }
{
    match ty {
        Ty::UByte => u8::try_from(number).is_ok(),
        Ty::UShort => u16::try_from(number).is_ok(),
        Ty::UInt => u32::try_from(number).is_ok(),
        _ => true,
    }
}

fn number_value(ty: &Ty, number: i64) -> Value
    ensures { result ≡ number_value (out-Ty ty.now) number }
{
    match ty {
        Ty::Bool => Value::Bool(number != 0),
        _ => Value::Num(number),
    }
}

/// A whole number as a value of the type.
#[tactic(auto, unfolding(crate::specs::ReadingSteps::number_at))]
pub fn read_number<'a>(alloc: Global, ty: &Ty, kind: WireType, bytes: &'a [u8]) -> Walk<'a, Value>
    ensures { Gives (λ x. (x.0, x.1.now)) result (number_at (out-Ty ty.now) kind bytes.now) }
{
    if !takes(ty, kind) {
        return Err(misfit(alloc, Misfit::WrongType));
    }
    let Some((number, rest)) = split_number(kind, bytes) else {
        return Err(Halt::Stopped);
    };
    if !in_range(ty, number) {
        return Err(misfit(alloc, Misfit::Range));
    }
    Ok((number_value(ty, number), rest))
}

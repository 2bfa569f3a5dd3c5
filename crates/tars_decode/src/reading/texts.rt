//! Strings and simple lists as values of types.

ghost use Rattle.std.specs.Prelude.{◌≡◌};
ghost use Rattle.tars_model.specs.declared.ty.Ty.{out-Ty};
ghost use Rattle.tars_decode.specs.ReadingSteps.{Gives, text_at, is_blob, simple_at};

use super::vectors::is_byte;
use crate::halt::{Halt, Walk, misfit};
use crate::refuse::Misfit;
use std::alloc::Global;
use tars_model::{Bytes8, Ty, Value};
use tars_wire::{WireType, split_simple, split_text};

/// A string.
#[tactic(auto, unfolding(crate::specs::ReadingSteps::text_at))]
pub fn read_text<'a>(alloc: Global, ty: &Ty, kind: WireType, bytes: &'a [u8]) -> Walk<'a, Value>
    ensures { Gives (λ x. (x.0, x.1.now)) result (text_at (out-Ty ty.now) kind bytes.now) }
{
    match ty {
        Ty::Text => {
            let Some((text, rest)) = split_text(kind, bytes) else {
                return Err(Halt::Stopped);
            };
            Ok((Value::Text(Bytes8::from_slice(alloc, text)?), rest))
        }
        _ => Err(misfit(alloc, Misfit::WrongType)),
    }
}

/// Whether a simple list is a value of the type.
fn is_blob(ty: &Ty) -> bool
    ensures { result ≡ is_blob (out-Ty ty.now) }
{
    match ty {
        Ty::Vector(of) => is_byte(of.get()),
        _ => false,
    }
}

/// A simple list.
#[tactic(auto, unfolding(crate::specs::ReadingSteps::simple_at))]
pub fn read_simple<'a>(alloc: Global, ty: &Ty, bytes: &'a [u8]) -> Walk<'a, Value>
    ensures { Gives (λ x. (x.0, x.1.now)) result (simple_at (out-Ty ty.now) bytes.now) }
{
    if !is_blob(ty) {
        return Err(misfit(alloc, Misfit::WrongType));
    }
    let Some((blob, rest)) = split_simple(bytes) else {
        return Err(Halt::Stopped);
    };
    Ok((Value::Blob(Bytes8::from_slice(alloc, blob)?), rest))
}

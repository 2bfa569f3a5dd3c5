//! Which numbers the values of types count as.

ghost use Rattle.std.specs.Prelude.{◌≡◌};
ghost use Rattle.tars_model.specs.declared.ty.Ty.{out-Ty};
ghost use Rattle.tars_versions.specs.Agreement.{numbers_of, numbers_taken, lie_in};

use tars_model::Ty;

/// The least and the greatest number that the values of a type count as: a bool is 0 or 1. None for a type without numbers.
fn numbers_of(ty: &Ty) -> Option<(i64, i64)>
    ensures { result ≡ numbers_of (out-Ty ty.now) }
{
    match ty {
        Ty::Bool => Some((0, 1)),
        Ty::Byte => Some((-0x80, 0x7F)),
        Ty::Short => Some((-0x8000, 0x7FFF)),
        Ty::Int | Ty::Enum(_) => Some((-0x8000_0000, 0x7FFF_FFFF)),
        Ty::Long => Some((i64::MIN, i64::MAX)),
        Ty::UByte => Some((0, 0xFF)),
        Ty::UShort => Some((0, 0xFFFF)),
        Ty::UInt => Some((0, 0xFFFF_FFFF)),
        _ => None,
    }
}

/// The least and the greatest number that a type takes: a bool takes those of a byte.
fn numbers_taken(ty: &Ty) -> Option<(i64, i64)>
    ensures { result ≡ numbers_taken (out-Ty ty.now) }
{
    match ty {
        Ty::Bool => Some((-0x80, 0x7F)),
        _ => numbers_of(ty),
    }
}

/// Whether the new type takes each number that the old one has.
pub fn takes_numbers(old: &Ty, new: &Ty) -> bool
    ensures { result ≡ lie_in (numbers_of (out-Ty old.now)) (numbers_taken (out-Ty new.now)) }
{
    match (numbers_of(old), numbers_taken(new)) {
        (Some((least, greatest)), Some((least_taken, greatest_taken))) => {
            least_taken <= least && greatest <= greatest_taken
        }
        _ => false,
    }
}

//! Types as the schema has them.

ghost use Rattle.std.specs.Prelude.{◌≡◌, IfOk};
ghost use Rattle.idl_parse.specs.TreeSpans.{TypeIn};
ghost use Rattle.idl_schema.specs.SchemaOf as spec;

use crate::place::Place;
use idl_parse::tree::{BasicType, TypeTree};
use std::alloc::{AllocError, Global};
use tars_model::{Boxed, Ty};

fn basic_type(basic: BasicType) -> Ty
    ensures { result ≡ spec.basic_type basic }
{
    match basic {
        BasicType::Bool => Ty::Bool,
        BasicType::Byte => Ty::Byte,
        BasicType::Short => Ty::Short,
        BasicType::Int | BasicType::Float | BasicType::Double => Ty::Int,
        BasicType::Long => Ty::Long,
        BasicType::Text => Ty::Text,
        BasicType::UnsignedByte => Ty::UByte,
        BasicType::UnsignedShort => Ty::UShort,
        BasicType::UnsignedInt => Ty::UInt,
    }
}

/// The type that is written.
pub(crate) fn resolved(
    alloc: Global,
    place: &Place<'_, '_>,
    ty: &TypeTree,
) -> Result<Ty, AllocError>
    requires { TypeIn place.now.text ty.now }
    ensures { IfOk result (λ t. t ≡ spec.resolved place.now ty.now) }
{
    Ok(match ty {
        TypeTree::Basic { basic, .. } => basic_type(*basic),
        TypeTree::Vector { element, .. } => {
            Ty::Vector(Boxed::new(alloc, resolved(alloc, place, element.get())?)?)
        }
        TypeTree::Map { key, value, .. } => {
            let key = Boxed::new(alloc, resolved(alloc, place, key.get())?)?;
            let value = Boxed::new(alloc, resolved(alloc, place, value.get())?)?;
            Ty::Map(key, value)
        }
        TypeTree::Named(name) => place.named_type(*name),
    })
}

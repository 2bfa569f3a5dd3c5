ghost use Rattle.std.specs.Prelude.{◌≡◌, true, IfOk};

use sqlite_items::Boxed;
use std::alloc::{AllocError, Global};

/// A type of the interface language (the Tars IDL, "Types").
#[derive(Drop)]
pub enum Ty {
    Bool,
    Byte,
    Short,
    Int,
    Long,
    /// `unsigned byte`
    UByte,
    /// `unsigned short`
    UShort,
    /// `unsigned int`
    UInt,
    /// `string`
    Text,
    /// An enum, by its number in the schema.
    Enum(u32),
    /// A struct, by its number in the schema.
    Struct(u32),
    Vector(Boxed<Ty>),
    /// The types of the keys and of the values.
    Map(Boxed<Ty>, Boxed<Ty>),
}

impl Ty {
    /// The same type once more.
    pub fn copy(&self, alloc: Global) -> Result<Ty, AllocError>
        ensures { IfOk result (λ ty. ty ≡ self.now) }
    {
        Ok(match self {
            Ty::Bool => Ty::Bool,
            Ty::Byte => Ty::Byte,
            Ty::Short => Ty::Short,
            Ty::Int => Ty::Int,
            Ty::Long => Ty::Long,
            Ty::UByte => Ty::UByte,
            Ty::UShort => Ty::UShort,
            Ty::UInt => Ty::UInt,
            Ty::Text => Ty::Text,
            Ty::Enum(number) => Ty::Enum(*number),
            Ty::Struct(number) => Ty::Struct(*number),
            Ty::Vector(of) => Ty::Vector(Boxed::new(alloc, of.get().copy(alloc)?)?),
            Ty::Map(key, value) => {
                let key = Boxed::new(alloc, key.get().copy(alloc)?)?;
                let value = Boxed::new(alloc, value.get().copy(alloc)?)?;
                Ty::Map(key, value)
            }
        })
    }

    /// Whether this is the same type as another.
    pub fn is_same(&self, other: &Ty) -> bool
        ensures yes { result ≡ true → self.now ≡ other.now }
        ensures no { self.now ≡ other.now → result ≡ true }
    {
        match self {
            Ty::Bool => matches!(other, Ty::Bool),
            Ty::Byte => matches!(other, Ty::Byte),
            Ty::Short => matches!(other, Ty::Short),
            Ty::Int => matches!(other, Ty::Int),
            Ty::Long => matches!(other, Ty::Long),
            Ty::UByte => matches!(other, Ty::UByte),
            Ty::UShort => matches!(other, Ty::UShort),
            Ty::UInt => matches!(other, Ty::UInt),
            Ty::Text => matches!(other, Ty::Text),
            Ty::Enum(number) => matches!(other, Ty::Enum(n) if n == number),
            Ty::Struct(number) => matches!(other, Ty::Struct(n) if n == number),
            Ty::Vector(of) => match other {
                Ty::Vector(o) => of.get().is_same(o.get()),
                _ => false,
            },
            Ty::Map(key, to) => match other {
                Ty::Map(k, t) => key.get().is_same(k.get()) && to.get().is_same(t.get()),
                _ => false,
            },
        }
    }
}

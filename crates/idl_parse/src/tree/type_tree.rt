use idl_lex::Span;
use tars_model::Boxed;

/// The types that are words.
#[derive(Clone, Copy, Debug, PartialEq, Eq)]
pub enum BasicType {
    Bool,
    Byte,
    Short,
    Int,
    Long,
    Float,
    Double,
    /// `string`
    Text,
    UnsignedByte,
    UnsignedShort,
    UnsignedInt,
}

/// `name`, or `scope::name`, where the scope is a module or an enum.
#[derive(Clone, Copy, PartialEq, Eq)]
pub struct ScopedName {
    pub scope: Option<Span>,
    pub name: Span,
}

/// A type as it is written. `at` is where its first token begins.
#[derive(Drop)]
pub enum TypeTree {
    Basic {
        at: u32,
        basic: BasicType,
    },
    Vector {
        at: u32,
        element: Boxed<TypeTree>,
    },
    Map {
        at: u32,
        key: Boxed<TypeTree>,
        value: Boxed<TypeTree>,
    },
    Named(ScopedName),
}

/// A type and the name of what has it.
#[derive(Drop)]
pub struct TypedName {
    pub ty: TypeTree,
    pub name: Span,
}

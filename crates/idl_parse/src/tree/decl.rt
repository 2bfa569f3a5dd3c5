use super::{FuncTree, Literal, MemberTree, TypedName};
use idl_lex::Span;
use tars_model::List;

/// A struct, its members in text order.
#[derive(Drop)]
pub struct StructTree {
    pub name: Span,
    pub members: List<MemberTree>,
}

/// An enumerator, with its number where one is written.
#[derive(Clone, Copy, PartialEq, Eq)]
pub struct EnumItem {
    pub name: Span,
    pub number: Option<Span>,
}

/// An enum, its enumerators in text order.
#[derive(Drop)]
pub struct EnumTree {
    pub name: Span,
    pub items: List<EnumItem>,
}

/// A constant.
#[derive(Drop)]
pub struct ConstTree {
    pub typed: TypedName,
    pub value: Literal,
}

/// The members by which structs of a name are sorted.
#[derive(Drop)]
pub struct KeyTree {
    pub struct_name: Span,
    /// The members' names.
    pub members: List<Span>,
}

/// An interface, its functions in text order.
#[derive(Drop)]
pub struct InterfaceTree {
    pub name: Span,
    pub funcs: List<FuncTree>,
}

/// What a module declares.
#[derive(Drop)]
pub enum DeclTree {
    Struct(StructTree),
    Enum(EnumTree),
    Const(ConstTree),
    Key(KeyTree),
    Interface(InterfaceTree),
}

use super::{TypeTree, TypedName};
use idl_lex::Span;
use tars_model::List;

/// A parameter. `routekey` is where that word stands.
#[derive(Drop)]
pub struct ParamTree {
    pub routekey: Option<u32>,
    pub out: bool,
    pub typed: TypedName,
}

/// A function. It is `void` where it has no type.
#[derive(Drop)]
pub struct FuncTree {
    pub ret: Option<TypeTree>,
    pub name: Span,
    pub params: List<ParamTree>,
}

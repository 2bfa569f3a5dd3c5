use super::DeclTree;
use idl_lex::Span;
use tars_model::List;

/// A block of a module, its declarations in text order.
#[derive(Drop)]
pub struct ModuleTree {
    pub name: Span,
    pub decls: List<DeclTree>,
}

/// What a file has: includes, by the span of the text, and modules.
#[derive(Drop)]
pub enum Entry {
    Include(Span),
    Module(ModuleTree),
}

//! What a file declares, as it is written (docs/IDL.md, "Grammar"). A name, number or text is the
//! span of its token.

mod decl;
mod func;
mod literal;
mod member;
mod module;
mod type_tree;

pub use decl::{ConstTree, DeclTree, EnumItem, EnumTree, InterfaceTree, KeyTree, StructTree};
pub use func::{FuncTree, ParamTree};
pub use literal::{Literal, LiteralWord};
pub use member::{ArrayLen, MemberTree, Requirement};
pub use module::{Entry, ModuleTree};
pub use type_tree::{BasicType, ScopedName, TypeTree, TypedName};

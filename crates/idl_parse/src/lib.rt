//! Tokens of the Tars interface language as the tree of a file (docs/IDL.md, "Grammar"). `parse` gives the file that
//! the tokens of a text are, or where and why they are none. The tokens come from `idl_lex`.
//!
//! Read `specs/Grammar.antt` first, which has the productions, then `specs/Faults.antt`, which says what fault tokens
//! have, and `specs/Files.antt` and `specs/TreeSpans.antt`, which say what holds of a file that is read. The modules
//! named `*Steps` follow the code's steps and are for the proofs.
#![tactic(auto)]

mod ast;
mod includes;
mod parse_fault;
mod parser;
pub mod tree;

pub use ast::{Ast, one_tree, parse};
pub use parse_fault::{ParseFault, ParseWhy};

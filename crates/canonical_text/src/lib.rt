//! The canonical text of a schema (docs/IDL.md, "Canonical text"). What it is, is in `specs/Canonical.antt`.
#![tactic(auto)]

mod blocks;
mod decls;
mod funcs;
mod literals;
mod members;
mod types;

pub use blocks::print;
pub use literals::{put_quoted, truth_word};

//! The values that scripts say (docs/SCRIPTS.md, "Scripts"): the arguments of a call, as one text, are read as a value
//! for each member.
//!
//! Read `specs/Args.antt` first, which says what texts say arguments.
#![tactic(auto)]

mod args;
mod args_fault;

pub use args::read_args;
pub use args_fault::ArgsFault;

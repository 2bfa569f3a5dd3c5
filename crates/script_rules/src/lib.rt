//! What the rules and calls of a script mean over an interface (docs/SCRIPTS.md, "Scripts"): `function_of` finds a
//! function by its name, `read_rule` gives the rule of a function that the words of a script mean, or their fault, and `read_call`
//! the arguments of a call.
//!
//! Read `specs/Rules.antt` first, which says what words mean. At which line a fault is told is left to the caller.
#![tactic(auto)]

mod calls;
mod functions;
mod laws;
mod params;
mod rule_fault;
mod rules;

pub use calls::read_call;
pub use functions::function_of;
pub use laws::{lines_are_judged, one_rule};
pub use rule_fault::RuleFault;
pub use rules::read_rule;

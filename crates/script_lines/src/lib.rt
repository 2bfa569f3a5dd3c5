//! Scripts as texts (docs/SCRIPTS.md, "General scripts"): `read_script` gives what the lines of a script say, by slices
//! of the text, or the fault of a text that is none. What the names and values mean is left to the caller.
//!
//! Read `specs/Scripts.antt` first, which says what a script and a fault are, with `specs/Faults.antt` (what is wrong
//! with a line), `specs/Forms.antt` (what a line says) and `specs/Meanings.antt` (which numbers are in range). The
//! modules named `*Steps` follow the code's steps and are for the proofs.
#![tactic(auto)]

mod draft;
mod event;
mod fault;
mod forms;
mod interface;
mod laws;
mod limits;
mod name_set;
mod numbers;
mod object;
mod queue;
mod reading;
mod rule;
mod scan;
mod script_lines;

pub use event::{EventLine, EventWords};
pub use fault::{ScriptFault, ScriptRefusal, ScriptWhy};
pub use interface::InterfaceLine;
pub use laws::one_outcome;
pub use object::ObjectWords;
pub use queue::QueueWords;
pub use reading::read_script;
pub use rule::{RuleLine, RuleWords};
pub use script_lines::ScriptLines;

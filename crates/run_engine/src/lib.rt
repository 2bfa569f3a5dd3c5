//! The engine of scripts: `run_plan` runs a session event by event (docs/SCRIPTS.md, "Events") and gives its report, which is the
//! one that `run_course` defines. Each part is tied to its part of what has happened by a relation of `specs/Tracks.antt`.
#![tactic(auto)]

mod call_note;
mod caller;
mod channel;
mod claims;
mod fate;
mod link_ends;
mod node;
mod one_line;
mod one_node;
mod plan;
mod reporting;
mod run;
mod serving;

pub use run::run_plan;

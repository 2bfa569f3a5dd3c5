//! What is answered to the calls of a script, by their values alone (`specs/Answered.antt`): the servant gets the projection of a
//! call's arguments to its version, and the caller the projection of what was replied to its own. `run_course` says the same by
//! bytes.
//!
//! The functions of this crate do nothing: each is a law, of the report of every session that loading has judged.
#![tactic(auto)]

mod laws;

pub use laws::{answered_by_servant, nothing_left};

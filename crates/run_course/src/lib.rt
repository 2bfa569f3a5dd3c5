//! What a run of a script is: what has happened after each event, in plain lists (`specs/Courses.antt`, which is read first, and
//! `specs/Nodes.antt`), and the report that comes of it (`specs/Planned.antt`). It goes by bytes: a node answers what a request's
//! bytes say, and a packet settles the call that it names.
//!
//! The functions of this crate do nothing: each is a law, of every run of every session.
#![tactic(auto)]

mod laws;

pub use laws::{legal_course, legal_report, one_node_course, one_node_report};

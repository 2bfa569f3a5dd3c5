//! What is made once for a session: the members of packets and functions, with which the frames of its calls are written and the bodies
//! of its replies are read, and the servant that replies by its rules.
//!
//! Read `specs/Made.antt` first.
#![tactic(auto)]

mod func_members;
mod service;
mod session_servant;

pub use service::{Service, node_of};
pub use session_servant::servant_of;

//! What answers the requests of an interface: a `Servant`, which replies to calls; `TableServant`, which replies by one rule a
//! function; and `answer`, which gives the response to a request. Read `specs/Servants.antt` and `specs/Answers.antt` first, beside
//! docs/PROTOCOL.md ("Return codes", "Servants"), then `specs/Rules.antt`.
//!
//! Packets are `rpc_packet`'s. When a request comes and where its response goes is the caller's.
#![tactic(auto)]

mod answering;
mod funcs;
mod laws;
mod replies;
mod replying;
mod responding;
mod rules;
mod servant;
mod table_servant;

pub use answering::answer;
pub use laws::{responses_are_packets, runs_go_on};
pub use replies::Reply;
pub use responding::{overloaded, timed_out};
pub use rules::Rule;
pub use servant::Servant;
pub use table_servant::TableServant;

//! The queue of an adapter: requests wait in it from the moment they came until a worker takes them. It holds so many items at
//! most, and tells which of them waited too long. Read `specs/Queues.antt` first, beside docs/PROTOCOL.md ("Adapters' queues").
//!
//! `OneQueue` is for one thread. It takes its room when it is made; `offer` and `take` take none, and neither moves what waits. What
//! an overloaded or a stale item is replied is the caller's.
#![tactic(auto)]

mod one_queue;
mod taken;
mod timed;

pub use one_queue::OneQueue;
pub use taken::{Overload, Taken};
pub use timed::Timed;

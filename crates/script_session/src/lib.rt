//! What a session is: a script with the interfaces of both sides (`Session`; `Loaded` where it was judged), and what happened in it
//! (`Report`).
//!
//! Read `specs/Sessions.antt` first, which says what parts a session has and what its node replies, then `specs/Judged.antt`, which
//! says what is judged of it.
#![tactic(auto)]

mod link_log;
mod loaded;
mod report;
mod session;
mod words;

pub use link_log::{Cut, GotFate, GotRow, LinkLog, SentRow};
pub use loaded::Loaded;
pub use report::{CallId, End, PickNote, Refusal, Report, RouteStep, Row, Why};
pub use session::{CallSpec, Endpoint, Event, FuncRule, ObjectName, Session};

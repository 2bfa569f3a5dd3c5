//! Two versions of an interface: what a reader of one makes of the values of the other, and whether it can ever refuse
//! them. Nothing is read or written here. Read `specs/Projected.antt` first, beside docs/PROTOCOL.md ("Projection"), then
//! `specs/Agreement.antt` ("Compatibility").
#![tactic(auto)]

mod agreement;
mod laws;
mod numbers;
mod path;
mod reason_kind;

pub use agreement::compatible;
pub use laws::{agreement_follows_rules, agreement_refuses_nothing, decoding_projects};
pub use path::Path;
pub use reason_kind::ReasonKind;

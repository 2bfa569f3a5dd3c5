//! The values of members, read from any bytes: what stands there under the members' tags, the defaults of
//! optional members that are absent, or the exact refusal. `tars_wire` judges the bytes first. What is written is
//! for `tars_codec`. Read `specs/Reads.antt` first, beside docs/PROTOCOL.md ("Reading members").
#![tactic(auto)]

mod halt;
mod keys;
mod numbers;
mod reading;
mod refuse;
mod seeking;
mod skipping;

pub use reading::decode;
pub use refuse::{Misfit, Refuse};

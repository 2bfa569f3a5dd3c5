//! How a refusal of `decode`, and the path to a place in values, are written (docs/SCRIPTS.md, "Refusals"), for whatever
//! line they stand in. Read `specs/RefuseText.antt` first.
#![tactic(auto)]

mod refuse_text;

pub use refuse_text::{put_path, put_refuse};

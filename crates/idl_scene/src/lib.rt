//! What names, types and literals mean at a place of an interface file (docs/IDL.md, "Rules"): a `Scene` is a place and
//! the names that are declared before it. Faults, and the least of those that were noted. Walking over files, and most
//! rules, are left to `idl_rules`.
//!
//! Read `specs/Known.antt` first, which says what is known of names, then `specs/Types.antt`, `specs/Structs.antt` and
//! `specs/Literals.antt`, which say what types and literals mean there, `specs/Items.antt`, which says in what order
//! files are judged, and `specs/Faults.antt`. The modules named `*Steps` follow the code's steps and are for the proofs.
#![tactic(auto)]

mod check_fault;
mod known;
mod literals;
mod note;
mod scene;
mod structs;
mod types;
mod word_set;

pub use check_fault::{CheckWhy, Fault};
pub use known::{Meaning, Names, Room};
pub use literals::{fits_literal, literal_start};
pub use note::note_if;
pub use scene::Scene;
pub use structs::{struct_depth, struct_size};
pub use types::{note_bad_key, note_deep, note_float, note_unknown, note_unsigned_bytes};
pub use word_set::WordSet;

//! The rules of interface files (docs/IDL.md, "Rules"): whether files keep them, and else which fault comes first.
//! Files are judged as they are written, each after those that it includes; reading them is left to the caller, and
//! so is making what they declare into a schema. What names, types and literals mean is said in `idl_scene`.
//!
//! Read `specs/Conditions.antt` first, which has the list of all rules, then `specs/Rules.antt`, which has each rule
//! but those of types, which `specs/Types.antt` of `idl_scene` has, and `specs/Parts.antt`, which says what is judged.
//! The modules named `*Steps` follow the code's steps and are for the proofs.
#![tactic(auto)]

mod check;
mod declared_names;
mod declared_types;
mod enumerators;
mod keys;
mod lists;
mod literals;
mod members;
mod named;
mod params;
mod walk;

pub use check::first_fault;
pub use idl_scene::{CheckWhy, Fault};

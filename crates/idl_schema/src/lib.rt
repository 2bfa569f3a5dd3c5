//! The schema that interface files declare, where they have no fault. `build` makes each declaration over those before
//! it and adds it to the schema, whose conditions follow from the rules that `idl_rules` judges.
//!
//! Read `specs/SchemaOf.antt` first, which says what is declared. `specs/Agreement.antt`, `specs/Faultless.antt`,
//! `specs/Naming.antt` and `specs/Reading.antt` are for the proofs. A type's name is found by its hash, among
//! those of the structs and of the enums so far.
#![tactic(auto)]

mod adding;
mod building;
mod descriptors;
mod enums;
mod functions;
mod literals;
mod members;
mod name_table;
mod place;
mod types;
mod walk;

pub use walk::build;

//! Interface files in which no rule finds a fault declare a schema, and so does what is loaded of files that hold bytes.
//! There is no code here, only definitions and theorems: read `specs/Written.antt`, then `schema_kept` in
//! `proofs/Kept.antt` and `loaded_is_schema` in `proofs/Loaded.antt`. Of interfaces it holds whatever files hold:
//! `loaded_interfaces` in `proofs/Interfaces.antt`.
#![tactic(auto)]

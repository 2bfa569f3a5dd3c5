//! What any list of bytes is: a body with its fields, or none, with its fault (`specs/Readings.antt`). That it can be told stands in
//! `proofs/Told.antt`, on the laws of `tars_wire`, so that definitions above may speak of what bytes say.
#![tactic(auto)]

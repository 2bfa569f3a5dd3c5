//! Values of the interface language as text, and back (docs/SCRIPTS.md, "Value text"). `print_value` and
//! `put_value` write a value in its one printed form; `read_value` reads the value that stands at the start of a text, or says where and why none
//! does; `read_whole` does the same of the text of a value file.
//!
//! Read `specs/Printed.antt` first, which says how a value is printed, then `specs/Spelling.antt`, which says what texts
//! say a value, and `specs/Faults.antt`, which says where and why a text says none. The modules named `*Steps` follow the
//! code's steps and are for the proofs.
#![tactic(auto)]

mod cursor;
mod halt;
mod numbers;
mod printing;
mod reading;
mod texts;
mod value_fault;
mod values;

pub use printing::{print_value, put_value};
pub use reading::{one_fault, one_value, read_value, read_whole};
pub use value_fault::{ValueFault, ValueWhy};

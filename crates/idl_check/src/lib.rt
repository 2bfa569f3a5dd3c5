//! Interface files as a schema, or the first fault against the rules (docs/IDL.md, "Rules" and "Schemas"). The rules are
//! in `idl_rules`, the schema of files without a fault in `idl_schema`; `print` is the canonical text of a schema.
#![tactic(auto)]

mod check_fault;
mod checking;
mod printing;

pub use check_fault::CheckFault;
pub use checking::check;
pub use idl_rules::CheckWhy;
pub use printing::print;

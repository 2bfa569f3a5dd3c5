//! Interface files, with those that they include, as a schema, and the lines that refuse texts: `load_schema` loads and
//! judges an interface file, `read_file` reads any other file that is no longer than a file may be, `refused` makes the
//! line of a text that is refused. Where files come from is left to the caller, through the trait `Files`.
//!
//! Read `specs/SchemaLoading.antt`, `specs/FileReading.antt` and `specs/Refusals.antt` first. The module `LoadSteps`
//! follows the code's steps and is for the proofs.
#![tactic(auto)]

mod file_reading;
mod laws;
mod load_fault;
mod refused_text;
mod schema_loading;
mod stage;
mod text_fault;

pub use file_reading::read_file;
pub use laws::{one_file_answer, one_schema_answer};
pub use load_fault::LoadFault;
pub use refused_text::{refusal_line, refused};
pub use schema_loading::load_schema;
pub use stage::Stage;
pub use text_fault::TextFault;

//! The outside of the program: files that are read, a sink that is written, and how a run ends.
//!
//! The traits say what a caller may rely on, whatever implements them. Each object counts its
//! faults, and returns an error only where its count rose (`specs/Causes.antt`). Where it tells its
//! bytes, the clauses name them (`specs/Contents.antt`); an object that tells nothing is held to the
//! counts and lengths alone. `MemFiles` and `MemSink` stand in memory and fail at chosen calls. The
//! objects of the system stand in a crate above, and so do links, clocks and gates.
#![tactic(auto)]

mod failing_calls;
mod fault;
mod files;
mod mem_files;
mod mem_sink;
mod named_file;
mod sink;
mod status;

pub use fault::{Failed, Memory, ReadFault};
pub use files::{Files, MAX_FILE};
pub use mem_files::MemFiles;
pub use mem_sink::MemSink;
pub use named_file::NamedFile;
pub use sink::{Sink, write_all};
pub use status::Status;

//! The files of an interface: the one that is named and those that it includes, each read once and after the files that
//! it includes (docs/IDL.md, "Loading"). Read `specs/FileText.antt` and `specs/Loading.antt` first.
#![tactic(auto)]

mod file_fault;
mod files_fault;
mod loading;
mod progress;
mod reading;
mod tree_fault;

pub use file_fault::FileFault;
pub use files_fault::FilesFault;
pub use loading::{load_files, one_reading};
pub use reading::read_tree;
pub use tree_fault::TreeFault;

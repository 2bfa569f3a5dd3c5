//! The commands over any files and any sink. `run` carries out what the arguments ask for: what it should do is said
//! by `specs/Due.antt`, to be read first, and how a run may end by `specs/Runs.antt`. `error_line` gives the line on
//! standard error. The objects of the system and the exit status are left to the program.
#![tactic(auto)]

mod command;
mod laws;
mod messages;

pub use command::run;
pub use laws::one_due_answer;
pub use messages::error_line;

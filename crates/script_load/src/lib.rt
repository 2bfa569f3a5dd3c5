//! Scripts loaded: `load` reads a script with the interface files of both sides and gives the session that they say, as a
//! `Loaded`, which was judged, or the first fault. Where files come from is left to the caller, through the trait `Files`, and so is
//! what is done with a session.
//!
//! Read `specs/Loading.antt` first, which says what loading gives, then `specs/Sessions.antt`, which says what session a script says,
//! and `specs/LineFaults.antt`, which says what is wrong with a line over the interfaces. The modules named `*Steps` are for the
//! proofs.
#![tactic(auto)]

mod calls;
mod faults;
mod laws;
mod loading;
mod mode;
mod rules;
mod session;
mod sides;

pub use faults::{LineFault, LineWhy};
pub use laws::one_answer;
pub use loading::load;
pub use mode::Mode;
pub use schema_files::LoadFault;

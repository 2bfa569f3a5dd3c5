//! The arguments of the command line as a request: `request_of`. `clap` reads them, as simple commands of one level; that no
//! argument is empty or begins with `-` is tested before it is asked, and what a struct's name says is read after it. None of
//! the texts that `clap` makes is used. What each command asks for is said by `specs/Words.antt`, to be read first.
#![tactic(auto)]

mod app;
mod reading;
mod request;
mod splitting;
mod words;

pub use request::{OldNew, OnStruct, Request, WordsFault};
pub use words::request_of;

//! The program. `run` of `tars_command` does its work over files and a sink; here stand the arguments of the
//! command line, the objects of the system, and the exit status.
#![tactic(auto)]

mod opener;
mod real_files;
mod real_sink;

use opener::System;
use real_files::RealFiles;
use real_sink::RealSink;
use std::env;
use std::io::ErrorKind;
use std::process::ExitCode;
use tars_base::Status;
use tars_command::{error_line, run};

/// Runs the arguments after the program's name.
fn run_words(rt: &HostRuntime) -> Status {
    let alloc = rt.alloc();
    let args = match env::args(rt) {
        Ok(args) => args,
        Err(error) if error.kind() == ErrorKind::OutOfMemory => return Status::Memory,
        Err(_) => return Status::Usage,
    };
    let Ok(words) = args.skip(1).collect::<Vec<String>>(alloc) else {
        return Status::Memory;
    };
    let mut files = RealFiles::new(System::new(rt));
    let mut out = RealSink::new(rt.stdout());
    run(alloc, &words, &mut files, &mut out)
}

fn main(rt: HostRuntime) -> ExitCode {
    let status = run_words(&rt);
    if let Some(line) = error_line(status) {
        // Where the line can't be printed, the status still tells.
        let _ = rt.eprintln(line);
    }
    ExitCode::from(status.number())
}

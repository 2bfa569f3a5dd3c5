//! Worked cases for `run` of `tars_command`: the files `data/*.rows` have the cases, a row each, and `stdout` what each
//! of them comes to. What comes of a row was worked by hand from docs/SCRIPTS.md, docs/IDL.md and docs/PROTOCOL.md, or by
//! the model of tests/plan_rows.py; it is printed in the row's place, and comments and empty lines are printed as they are.
//!
//! The program takes the names of the tables. Each row is a run over files and a sink in memory.
#![tactic(auto)]

mod case;
mod check_case;
mod row_text;
mod rows;
mod struct_case;
mod told;
mod version_case;

use row_pages::print_table;
use rows::RunRows;
use std::{env, io};

fn main(rt: HostRuntime) -> io::Result<()> {
    for name in env::args(&rt)?.skip(1) {
        print_table::<RunRows>(&rt, &name)?;
    }
    Ok(())
}

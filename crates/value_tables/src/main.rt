//! Worked cases for `tars_codec`, `tars_decode`, `tars_versions`, `value_text` and `idl_check`: the files `data/*.rows`
//! have the cases, a row each, and `stdout` what each of them comes to. What comes of a row was worked by hand from
//! docs/PROTOCOL.md, docs/IDL.md and docs/SCRIPTS.md, or by the readers of tests/body_rows.py, value_rows.py,
//! version_rows.py and argument_rows.py; it is printed in the row's place, and comments and empty lines are printed as
//! they are.
//!
//! The program takes the names of the tables.
#![tactic(auto)]

mod arguments;
mod bodies;
mod codec;
mod rows;
mod schemas;
mod structs;
mod values;
mod versions;

use row_pages::print_table;
use rows::ValueRows;
use std::{env, io};

fn main(rt: HostRuntime) -> io::Result<()> {
    for name in env::args(&rt)?.skip(1) {
        print_table::<ValueRows>(&rt, &name)?;
    }
    Ok(())
}

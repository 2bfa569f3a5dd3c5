//! Worked cases for `script_lines`: `data/scripts.rows` has a script a row, and `stdout` what it says or its fault. What comes of a
//! row was worked by hand from docs/SCRIPTS.md ("General scripts"), or by the reader of tests/script_rows.py; comments and empty
//! lines are printed as they are.
//!
//! Of a file that is no table the program prints how many rules and events it has as a script, so that reading can be timed.
#![tactic(auto)]

mod counting;
mod rows;

use counting::print_count;
use row_pages::print_table;
use rows::ScriptRows;
use std::{env, io};

fn main(rt: HostRuntime) -> io::Result<()> {
    for name in env::args(&rt)?.skip(1) {
        if name.ends_with(".rows") {
            print_table::<ScriptRows>(&rt, &name)?;
        } else {
            print_count(&rt, &name)?;
        }
    }
    Ok(())
}

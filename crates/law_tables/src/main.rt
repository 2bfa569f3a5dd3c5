//! Worked cases for `tars_base`, `tars_model`, `tars_wire`, `idl_lex` and `idl_parse`: the files `data/*.rows` have the
//! cases, a row each, and `stdout` what each of them comes to. What comes of a row was worked by hand from
//! docs/PROTOCOL.md, docs/IDL.md and docs/SCRIPTS.md; it is printed in the row's place, and comments and empty lines are
//! printed as they are.
//!
//! The program takes the names of files. Of a file that is no table it prints whether its bytes are a body
//! of tagged fields (docs/PROTOCOL.md, "Reading"), so that scanning can be timed.
#![tactic(auto)]

mod descriptors;
mod files;
mod outside;
mod rows;
mod shape;
mod tokens;
mod walk;

use row_pages::print_table;
use rows::LawRows;
use std::{env, fs, io};
use tars_wire::scan;

/// The longest file that is scanned.
const MAX_FILE: usize = 1 << 30;

/// Prints whether the bytes are a body.
fn print_scan(rt: &HostRuntime, name: &str, bytes: &[u8]) -> io::Result<()> {
    let len = bytes.len();
    if len > MAX_FILE {
        return println!(rt; "{name}: {len} bytes are too many");
    }
    match scan(bytes) {
        Ok(_) => println!(rt; "{name}: a body of {len} bytes"),
        Err(fault) => println!(rt; "{name}: {fault}"),
    }
}

/// Prints what comes of a file.
fn print_file(rt: &HostRuntime, name: &str) -> io::Result<()> {
    if name.ends_with(".rows") {
        print_table::<LawRows>(rt, name)
    } else {
        print_scan(rt, name, &fs::read(rt, name)?)
    }
}

fn main(rt: HostRuntime) -> io::Result<()> {
    for name in env::args(&rt)?.skip(1) {
        print_file(&rt, &name)?;
    }
    Ok(())
}

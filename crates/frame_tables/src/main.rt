//! Worked cases for `tars_frames`: `data/frames.rows` has a stream in pieces a row, and `stdout` what comes of each. What comes of a row
//! was worked by hand from docs/PROTOCOL.md ("Packets"), or by the reader of tests/frame_rows.py; comments and empty lines are
//! printed as they are.
//!
//! Given a file, a length and a count, the program feeds the file so many times in pieces of this length and counts the packets, so
//! that cutting can be timed.
#![tactic(auto)]

mod counting;
mod rows;

use counting::count_packets;
use row_pages::print_table;
use rows::FrameRows;
use std::{env, fs, io};

/// Prints how many packets a stream has that is a file so many times.
fn print_count(rt: &HostRuntime, name: &str, length: &str, times: &str) -> io::Result<()> {
    let bytes = fs::read(rt, name)?;
    let length = length.parse::<usize>().unwrap_or(1);
    let times = times.parse::<u32>().unwrap_or(1);
    match count_packets(rt.alloc(), &bytes, length, times) {
        Ok(packets) => println!(rt; "{name}: {packets} packets"),
        Err(_) => println!(rt; "{name}: refused"),
    }
}

fn main(rt: HostRuntime) -> io::Result<()> {
    let words = env::args(&rt)?.skip(1).collect::<Vec<String>>(rt.alloc())?;
    match words.as_slice() {
        [name, length, times] => print_count(&rt, name, length, times),
        [name] => print_table::<FrameRows>(&rt, name),
        _ => println!(rt; "usage: frame_tables FILE [LENGTH TIMES]"),
    }
}

//! Worked cases for `rpc_packet` and `servant_core`: the files `data/*.rows` have the cases, a row each, and `stdout` what each of
//! them comes to, by tests/packet_rows.py and tests/answer_rows.py, which share nothing with the crates. It is printed in the row's
//! place, and comments and empty lines are printed as they are.
//!
//! Given a file with a packet, a word and a count, the program does what the word says to the packet so many times, so that it can be
//! timed.
#![tactic(auto)]

mod answers;
mod counter;
mod fields;
mod interfaces;
mod packets;
mod reading;
mod rows;
mod rules;
mod timing;
mod writing;

use row_pages::print_table;
use rows::PacketRows;
use std::{env, io};
use timing::print_times;

fn main(rt: HostRuntime) -> io::Result<()> {
    let words = env::args(&rt)?.skip(1).collect::<Vec<String>>(rt.alloc())?;
    if let [name, work, times] = words.as_slice() {
        if !work.ends_with(".rows") {
            return print_times(&rt, name, work, times);
        }
    }
    for name in words.iter() {
        print_table::<PacketRows>(&rt, name)?;
    }
    Ok(())
}

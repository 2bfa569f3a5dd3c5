//! The rules and events of a file, counted.

use script_lines::{ScriptRefusal, read_script};
use std::{fs, io};
use tars_base::MAX_FILE;

/// Prints how many rules and events the file has as a script.
pub fn print_count(rt: &HostRuntime, name: &str) -> io::Result<()> {
    let bytes = fs::read(rt, name)?;
    if bytes.len() > MAX_FILE {
        return println!(rt; "{name}: too long");
    }
    match read_script(rt.alloc(), &bytes) {
        Ok(script) => {
            let rules = script.rules.len();
            let events = script.events.len();
            println!(rt; "{name}: {rules} rules, {events} events")
        }
        Err(ScriptRefusal::Fault(fault)) => {
            let number = fault.why.number();
            let at = fault.at;
            println!(rt; "{name}: fault {number} at {at}")
        }
        Err(ScriptRefusal::Memory) => println!(rt; "{name}: no memory"),
    }
}

//! What a report tells of its calls and packets, without the bytes.

use std::alloc::{AllocError, Global};

/// What a line of a report tells: how a call ends, or what came of a packet.
fn told_by(line: &str) -> Option<&str> {
    if line.starts_with("call ") {
        return line.splitn(6, ' ').nth(5);
    }
    if line.starts_with("got ") {
        let (told, _packet) = line.rsplit_once(' ')?;
        return told.splitn(4, ' ').nth(3);
    }
    None
}

/// How the calls of a report end, and then what came of its packets.
pub fn told(alloc: Global, report: &str) -> Result<String, AllocError> {
    let mut told = String::new(alloc);
    for line in report.lines().filter_map(told_by) {
        if !told.is_empty() {
            told.push_str("; ")?;
        }
        told.push_str(line)?;
    }
    Ok(told)
}

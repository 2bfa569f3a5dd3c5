//! The commands on the values of a struct, over files in memory.

use crate::case::{named, ran_over, shown};
use crate::row_text::text_of;
use std::alloc::{AllocError, Global};
use tars_base::MemFiles;

/// The interface file of a row.
const INTERFACE: &str = "s.tars";

/// The file with the values of a row.
fn values_file(command: &str) -> &'static str {
    match command {
        "encode" => "v.txt",
        _ => "h.txt",
    }
}

/// `A | B`: two texts. Where there is no B, no space stands after the bar; where there is no bar either, it is absent.
pub fn two_files(text: &str) -> (&str, Option<&str>) {
    match text.split_once(" |") {
        Some((interface, values)) => (interface, Some(values.strip_prefix(' ').unwrap_or(values))),
        None => (text, None),
    }
}

/// What comes of a command on a struct of this interface file, with these values.
fn outcome(
    alloc: Global,
    command: &str,
    of: &str,
    interface: &str,
    values: Option<&str>,
) -> Result<String, AllocError> {
    let file = values_file(command);
    let mut files = vec![in alloc; named(alloc, INTERFACE, interface)?]?;
    if let Some(values) = values {
        files.push(named(alloc, file, values)?)?;
    }
    let arguments = format!(in alloc; "{command} {INTERFACE} {of} {file}")?;
    let files = MemFiles::new(files, Vec::new(alloc));
    let (status, text) = ran_over(alloc, &arguments, files, 0)?;
    shown(alloc, status, &text)
}

/// An interface file with a struct `M::S` of these members.
pub fn interface_of(alloc: Global, members: &str) -> Result<String, AllocError> {
    format!(in alloc; "module M {{ struct S {{ {members} }}; }};")
}

/// `STRUCT INTERFACE | VALUES`: a command on this struct. Without a bar there is no file with values.
pub fn of_struct(alloc: Global, command: &str, row: &str) -> Result<String, AllocError> {
    let row = text_of(alloc, row)?;
    let (of, texts) = row.split_once(' ').unwrap_or((row.as_str(), ""));
    let (interface, values) = two_files(texts);
    outcome(alloc, command, of, interface, values)
}

/// `MEMBERS | VALUES`: a command on a struct of these members.
pub fn of_members(alloc: Global, command: &str, row: &str) -> Result<String, AllocError> {
    let row = text_of(alloc, row)?;
    let (members, values) = two_files(&row);
    let interface = interface_of(alloc, members)?;
    outcome(alloc, command, "M::S", &interface, values)
}

//! A run over files and a sink in memory.

use crate::row_text::text_of;
use std::alloc::{AllocError, Global};
use std::str;
use tars_base::{MemFiles, MemSink, NamedFile, Status};
use tars_command::run;

pub const CALC: &str = "module M { interface Calc { int add(int a, int b); }; };\n";

/// The head of a script, without events.
pub const HEADER: &str = "client calc.tars
interface M::Calc
object A.B.C@tcp -h 127.0.0.1 -p 9001 -t 3000
servant add add a b
";

pub const FIRST: &str = "client calc.tars
interface M::Calc
object A.B.C@tcp -h 127.0.0.1 -p 9001 -t 3000
servant add add a b
call 1 add 2 3
serve 1
work 1
deliver 1
";

/// The arguments of a run, the texts of `first.plan`, `calc.tars` and `b.tars`, and the numbers of the read and of the
/// write that are to fail; 0 is none. Where `b.tars` has no text, it is not there.
#[derive(Clone, Copy)]
pub struct Case<'a> {
    pub arguments: &'a str,
    pub script: &'a str,
    pub interface: &'a str,
    pub other: &'a str,
    pub failing_read: u64,
    pub failing_write: u64,
}

/// The arguments that stand between spaces.
fn arguments_of(alloc: Global, text: &str) -> Result<Vec<String>, AllocError> {
    let mut arguments = Vec::new(alloc);
    for argument in text.split_ascii_whitespace() {
        arguments.push(text_of(alloc, argument)?)?;
    }
    Ok(arguments)
}

pub fn named(alloc: Global, name: &str, text: &str) -> Result<NamedFile, AllocError> {
    let name = String::from_str(alloc, name)?;
    let bytes = text.as_bytes().to_vec(alloc)?;
    Ok(NamedFile { name, bytes })
}

/// The files of a case, of which one read is to fail.
fn files_of(alloc: Global, case: &Case) -> Result<MemFiles, AllocError> {
    let mut files = Vec::new(alloc);
    files.push(named(alloc, "first.plan", case.script)?)?;
    files.push(named(alloc, "calc.tars", case.interface)?)?;
    if !case.other.is_empty() {
        files.push(named(alloc, "b.tars", case.other)?)?;
    }
    Ok(MemFiles::new(files, vec![in alloc; case.failing_read]?))
}

/// A sink that takes a byte at a time, of which one write is to fail.
fn sink_of(alloc: Global, failing: u64) -> Result<MemSink, AllocError> {
    let mut sink = MemSink::new(alloc, 1, vec![in alloc; failing]?);
    sink.reserve(alloc, 4000)?;
    Ok(sink)
}

/// How a run with these arguments ends, over these files and a sink of which one write is to fail; and what it writes.
pub fn ran_over(
    alloc: Global,
    arguments: &str,
    mut files: MemFiles,
    failing_write: u64,
) -> Result<(Status, String), AllocError> {
    let arguments = arguments_of(alloc, arguments)?;
    let mut sink = sink_of(alloc, failing_write)?;
    let status = run(alloc, &arguments, &mut files, &mut sink);
    let text = str::from_utf8(sink.bytes()).unwrap_or("no text");
    Ok((status, String::from_str(alloc, text)?))
}

/// How the run of a case ends, and what it writes.
pub fn ran(alloc: Global, case: &Case) -> Result<(Status, String), AllocError> {
    let files = files_of(alloc, case)?;
    ran_over(alloc, case.arguments, files, case.failing_write)
}

/// A status, and the text that was written, if there is one.
pub fn shown(alloc: Global, status: Status, text: &str) -> Result<String, AllocError> {
    if text.is_empty() {
        return format!(in alloc; "{status:?}");
    }
    let text = text.replace(alloc, "\n", "~n")?;
    format!(in alloc; "{status:?}: {text}")
}

//! Files and sinks in memory, of which calls fail, and how a run ends.

use row_pages::{Page, split_word};
use std::alloc::{AllocError, Global};
use std::str;
use tars_base::{Files, MemFiles, MemSink, NamedFile, ReadFault, Sink, Status, write_all};

/// The short files of all rows.
const FILES: [(&str, &[u8]); 3] = [
    ("a.tars", b"module"),
    ("b.tars", b""),
    ("a.tars", b"second"),
];

/// How many bytes the file `long` has.
const LONG: usize = 1048577;

fn file(alloc: Global, name: &str, bytes: &[u8]) -> Result<NamedFile, AllocError> {
    let name = String::from_str(alloc, name)?;
    let bytes = bytes.to_vec(alloc)?;
    Ok(NamedFile { name, bytes })
}

/// A long file.
fn long_file(alloc: Global) -> Result<NamedFile, AllocError> {
    let bytes = vec![in alloc; b'x'; LONG]?;
    file(alloc, "long", &bytes)
}

/// Adds the files of all rows.
fn add_files(alloc: Global, files: &mut Vec<NamedFile>) -> Result<(), AllocError> {
    for (name, bytes) in &FILES {
        files.push(file(alloc, name, bytes)?)?;
    }
    Ok(files.push(long_file(alloc)?)?)
}

/// The files of all rows, of which one read is to fail.
fn files_of(alloc: Global, failing: u64) -> Result<MemFiles, AllocError> {
    let mut files = Vec::new(alloc);
    add_files(alloc, &mut files)?;
    Ok(MemFiles::new(files, vec![in alloc; failing]?))
}

/// The number that a word is; 0 for another word.
fn number(word: &str) -> usize {
    word.parse::<usize>().unwrap_or(0)
}

/// Adds what was read of a file. Of more than ten bytes is told how many they are.
fn put_bytes(page: &mut Page, bytes: &[u8]) {
    let len = bytes.len();
    if len > 10 {
        page.show(format_args!("{len} bytes, "));
    } else {
        page.add(str::from_utf8(bytes).unwrap_or("?"));
        page.add(", ");
    }
}

/// `NAME MOST`: what is read of a file.
fn put_read(page: &mut Page, files: &mut MemFiles, call: &str) {
    let (name, most) = split_word(call);
    match files.read(page.alloc(), name, number(most)) {
        Ok(bytes) => put_bytes(page, &bytes),
        Err(ReadFault::Failed) => page.add("Failed, "),
        Err(ReadFault::Memory) => page.fail(),
    }
}

/// `NAME MOST, NAME MOST ..`: what is read of each file, and how many files there are.
fn put_all_reads(page: &mut Page, files: &mut MemFiles, calls: &str) {
    for call in calls.split(", ") {
        put_read(page, files, call);
    }
    let count = files.files().len();
    page.show(format_args!("of {count} files"));
}

/// `reads FAILING: NAME MOST, NAME MOST ..`: what each read gives.
pub fn put_reads(page: &mut Page, text: &str) {
    let (failing, calls) = text.split_once(": ").unwrap_or((text, ""));
    match files_of(page.alloc(), failing.parse::<u64>().unwrap_or(0)) {
        Ok(files) => {
            let mut files = files;
            put_all_reads(page, &mut files, calls);
        }
        Err(_) => page.fail(),
    }
}

/// `ROOM TEXT`: makes room for at least so many bytes more, and writes the text.
fn put_write(page: &mut Page, sink: &mut MemSink, call: &str) {
    let (room, text) = split_word(call);
    if sink.reserve(page.alloc(), number(room)).is_err() {
        page.fail();
    }
    match write_all(sink, text.as_bytes()) {
        Ok(()) => page.add("Ok, "),
        Err(_) => page.add("Failed, "),
    }
}

/// `ROOM TEXT, ROOM TEXT ..`: what comes of each, and the bytes that the sink holds.
fn put_all_writes(page: &mut Page, sink: &mut MemSink, calls: &str) {
    for call in calls.split(", ") {
        put_write(page, sink, call);
    }
    page.add("holds \"");
    page.add(str::from_utf8(sink.bytes()).unwrap_or("?"));
    page.add("\"");
}

/// `writes STEP FAILING: ROOM TEXT, ROOM TEXT ..`: what comes of each.
pub fn put_writes(page: &mut Page, text: &str) {
    let (head, calls) = text.split_once(": ").unwrap_or((text, ""));
    let (step, failing) = split_word(head);
    match vec![in page.alloc(); failing.parse::<u64>().unwrap_or(0)] {
        Ok(failing) => {
            let mut sink = MemSink::new(page.alloc(), number(step).max(1), failing);
            put_all_writes(page, &mut sink, calls);
        }
        Err(_) => page.fail(),
    }
}

/// Adds how much of bytes a sink holds that takes a thousand at a time.
fn put_copied(page: &mut Page, bytes: &[u8]) {
    let mut sink = MemSink::new(page.alloc(), 1000, Vec::new(page.alloc()));
    if sink.reserve(page.alloc(), bytes.len()).is_err() {
        page.fail();
    }
    let came = write_all(&mut sink, bytes);
    let (read, held) = (bytes.len(), sink.bytes().len());
    page.show(format_args!("{came:?}, {read} read, {held} written"));
}

/// `copies MOST`: how much of a long file is read, and how much of that a sink holds.
pub fn put_copy(page: &mut Page, most: &str) {
    let Ok(files) = files_of(page.alloc(), 0) else {
        return page.fail();
    };
    let mut files = files;
    match files.read(page.alloc(), "long", number(most)) {
        Ok(bytes) => put_copied(page, &bytes),
        Err(_) => page.fail(),
    }
}

/// `status WORD`: its number, and its line.
pub fn put_status(page: &mut Page, word: &str) {
    let status = match word {
        "Done" => Status::Done,
        "Refused" => Status::Refused,
        "Usage" => Status::Usage,
        "ReadFault" => Status::ReadFault,
        "WriteFault" => Status::WriteFault,
        "Memory" => Status::Memory,
        _ => Status::NetFault,
    };
    page.show(status.number());
    page.add(", ");
    page.add(status.message().unwrap_or("no line"));
}

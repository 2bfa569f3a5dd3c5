//! A check of interface files in memory.

use crate::row_text::text_of;
use std::alloc::{AllocError, Global};
use std::str;
use tars_base::{MemFiles, MemSink, NamedFile, Status};
use tars_command::run;

/// The most bytes that a check may print.
const ROOM: usize = 100_000;

/// The most bytes of a text that is shown whole.
const SHOWN: usize = 1000;

/// The file of `check TEXT`.
const NAME: &str = "s.tars";

/// A text with a number in the place of each sign, counted from this one on.
fn counted(alloc: Global, text: &str, sign: char, first: u32) -> Result<String, AllocError> {
    let Some((before, rest)) = text.split_once(sign) else {
        return String::from_str(alloc, text);
    };
    let mut all = String::from_str(alloc, before)?;
    for (number, piece) in (first..u32::MAX).zip(rest.split(sign)) {
        all.push_str(&format!(in alloc; "{number}{piece}")?)?;
    }
    Ok(all)
}

/// The files of a row, each `NAME TEXT`, with ` | ` between them. `?` stands for `()`, `%` and `$` for numbers.
fn files_text(alloc: Global, row: &str) -> Result<String, AllocError> {
    let text = text_of(alloc, row)?.replace(alloc, "?", "()")?;
    let text = counted(alloc, &text, '%', 0)?;
    counted(alloc, &text, '$', 1)
}

/// A file of a row, without its mark.
fn file_of(alloc: Global, text: &str) -> Result<NamedFile, AllocError> {
    let (name, text) = text.split_once(' ').unwrap_or((text, ""));
    let name = String::from_str(alloc, name)?;
    let text = text.replace(alloc, "^", "")?;
    let bytes = text.as_bytes().to_vec(alloc)?;
    Ok(NamedFile { name, bytes })
}

/// Where the mark stands in the file of a name, if it has one.
fn mark_of(files: &str, name: &str) -> Option<usize> {
    for file in files.split(" | ") {
        let (own, text) = file.split_once(' ').unwrap_or((file, ""));
        if own == name {
            return text.find('^');
        }
    }
    None
}

/// How a check ends, and what it prints.
fn ran(alloc: Global, name: &str, files: Vec<NamedFile>) -> Result<(Status, String), AllocError> {
    let (command, name) = (
        String::from_str(alloc, "check")?,
        String::from_str(alloc, name)?,
    );
    let words = vec![in alloc; command, name]?;
    let mut files = MemFiles::new(files, Vec::new(alloc));
    let mut sink = MemSink::new(alloc, ROOM, Vec::new(alloc));
    sink.reserve(alloc, ROOM)?;
    let status = run(alloc, &words, &mut files, &mut sink);
    let text = str::from_utf8(sink.bytes()).unwrap_or("no text");
    Ok((status, String::from_str(alloc, text)?))
}

/// A refusal without the end of its line. The offset of a mark is shown as `at the mark`.
fn refused(alloc: Global, files: &str, line: &str) -> Result<String, AllocError> {
    let line = line.strip_suffix('\n').unwrap_or(line);
    let (head, offset) = line.rsplit_once(' ').unwrap_or((line, ""));
    let name = head.split(' ').nth(1).unwrap_or("");
    let mark = match mark_of(files, name) {
        Some(mark) => format!(in alloc; "{mark}")?,
        None => String::new(alloc),
    };
    if mark.as_str() == offset {
        return format!(in alloc; "{head} at the mark");
    }
    String::from_str(alloc, line)
}

/// A text in one line; of a long one its length, of an empty one `nothing`.
fn shown(alloc: Global, text: &str) -> Result<String, AllocError> {
    match text.len() {
        0 => String::from_str(alloc, "nothing"),
        1..=SHOWN => Ok(text.replace(alloc, "\n", "~n")?),
        length => format!(in alloc; "{length} bytes"),
    }
}

/// What is printed of files that are accepted, and what comes of that text as a file.
fn accepted(alloc: Global, text: &str) -> Result<String, AllocError> {
    let name = String::from_str(alloc, NAME)?;
    let bytes = text.as_bytes().to_vec(alloc)?;
    let (status, again) = ran(alloc, NAME, vec![in alloc; NamedFile { name, bytes }]?)?;
    let shown = shown(alloc, text)?;
    if matches!(status, Status::Done) && again.as_str() == text {
        return format!(in alloc; "{shown} (again the same)");
    }
    format!(in alloc; "{shown} (again: {status:?} {again})")
}

/// What comes of a check of files, the first of which is named.
fn outcome(alloc: Global, text: &str) -> Result<String, AllocError> {
    let mut files = Vec::new(alloc);
    for file in text.split(" | ") {
        files.push(file_of(alloc, file)?)?;
    }
    let (name, _rest) = text.split_once(' ').unwrap_or((text, ""));
    let (status, printed) = ran(alloc, name, files)?;
    match status {
        Status::Refused => refused(alloc, text, &printed),
        Status::Done => accepted(alloc, &printed),
        other => format!(in alloc; "{other:?}{printed}"),
    }
}

/// `files NAME TEXT | NAME TEXT ..`: a check of the first of these files.
pub fn check_files(alloc: Global, row: &str) -> Result<String, AllocError> {
    outcome(alloc, &files_text(alloc, row)?)
}

/// `check TEXT`: a check of this file.
pub fn check_text(alloc: Global, row: &str) -> Result<String, AllocError> {
    check_files(alloc, &format!(in alloc; "{NAME} {row}")?)
}

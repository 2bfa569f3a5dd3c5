//! What comes of a row: a word, and what it is asked of.

use crate::case::{CALC, Case, FIRST, HEADER, ran, shown};
use crate::check_case::{check_files, check_text};
use crate::row_text::text_of;
use crate::struct_case::{of_members, of_struct};
use crate::told::told;
use crate::version_case::{compare_members, compare_struct};
use row_pages::{Page, Rows};
use std::alloc::{AllocError, Global};
use tars_base::Status;

/// The script `first.plan` is run, and no call fails.
const PLAIN: Case = Case {
    arguments: "plan first.plan",
    script: FIRST,
    interface: CALC,
    other: "",
    failing_read: 0,
    failing_write: 0,
};

/// What comes of a case.
fn outcome(alloc: Global, case: &Case) -> Result<String, AllocError> {
    let (status, text) = ran(alloc, case)?;
    shown(alloc, status, &text)
}

/// `N ARGUMENTS`: a number, and the arguments.
fn numbered(text: &str) -> (u64, &str) {
    let (number, arguments) = text.split_once(' ').unwrap_or((text, ""));
    (number.parse::<u64>().unwrap_or(0), arguments)
}

/// `run ARGUMENTS`: no call fails.
fn no_fault(arguments: &str) -> Case {
    Case { arguments, ..PLAIN }
}

/// `read N ARGUMENTS`: the read of this number fails.
fn read_fault(text: &str) -> Case {
    let (failing_read, arguments) = numbered(text);
    Case {
        failing_read,
        ..no_fault(arguments)
    }
}

/// `write N ARGUMENTS`: the write of this number fails.
fn write_fault(text: &str) -> Case {
    let (failing_write, arguments) = numbered(text);
    Case {
        failing_write,
        ..no_fault(arguments)
    }
}

/// `A => B`: two texts. Where B is empty, no space stands after the arrow.
fn two_texts(text: &str) -> (&str, &str) {
    let (first, second) = text.split_once(" =>").unwrap_or((text, ""));
    (first, second.strip_prefix(' ').unwrap_or(second))
}

/// A text with `OLD => NEW` carried out in it.
fn replaced(alloc: Global, whole: &str, text: &str) -> Result<String, AllocError> {
    let change = text_of(alloc, text)?;
    let (old, new) = two_texts(&change);
    Ok(whole.replace(alloc, old, new)?)
}

/// `script OLD => NEW`: the script with a change.
fn script(alloc: Global, text: &str) -> Result<String, AllocError> {
    let script = replaced(alloc, FIRST, text)?;
    let case = Case {
        script: &script,
        ..PLAIN
    };
    outcome(alloc, &case)
}

/// `interface OLD => NEW`: the interface file with a change.
fn interface(alloc: Global, text: &str) -> Result<String, AllocError> {
    let interface = replaced(alloc, CALC, text)?;
    let case = Case {
        interface: &interface,
        ..PLAIN
    };
    outcome(alloc, &case)
}

/// `texts SCRIPT => INTERFACE => OTHER`: other texts.
fn texts(alloc: Global, text: &str) -> Result<String, AllocError> {
    let all = text_of(alloc, text)?;
    let (script, rest) = two_texts(&all);
    let (interface, other) = two_texts(rest);
    let case = Case {
        script,
        interface,
        other,
        ..PLAIN
    };
    outcome(alloc, &case)
}

/// `events EVENT; EVENT ..`: other events. Of a report that is printed is shown what it tells.
fn events(alloc: Global, text: &str) -> Result<String, AllocError> {
    let events = text_of(alloc, text)?.replace(alloc, "; ", "\n")?;
    let script = format!(in alloc; "{HEADER}{events}")?;
    let case = Case {
        script: &script,
        ..PLAIN
    };
    match ran(alloc, &case)? {
        (Status::Done, report) => {
            let told = told(alloc, &report)?;
            shown(alloc, Status::Done, &told)
        }
        (status, text) => shown(alloc, status, &text),
    }
}

/// What comes of a row. One that asks for nothing is a comment, and is given back.
fn outcome_of(alloc: Global, row: &str) -> Result<String, AllocError> {
    let (word, text) = row.split_once(' ').unwrap_or((row, ""));
    match word {
        "run" => outcome(alloc, &no_fault(text)),
        "read" => outcome(alloc, &read_fault(text)),
        "write" => outcome(alloc, &write_fault(text)),
        "script" => script(alloc, text),
        "interface" => interface(alloc, text),
        "texts" => texts(alloc, text),
        "events" => events(alloc, text),
        "check" => check_text(alloc, text),
        "files" => check_files(alloc, text),
        "encode" => of_members(alloc, "encode", text),
        "decode" => of_members(alloc, "decode", text),
        "encode-of" => of_struct(alloc, "encode", text),
        "decode-of" => of_struct(alloc, "decode", text),
        "compat" => compare_members(alloc, text),
        "compat-of" => compare_struct(alloc, text),
        _ => String::from_str(alloc, row),
    }
}

/// Rows that are runs over files and a sink in memory.
pub struct RunRows;

impl Rows for RunRows {
    /// Adds what comes of a row.
    fn put_row(page: &mut Page, row: &str) {
        match outcome_of(page.alloc(), row) {
            Ok(outcome) => page.add(&outcome),
            Err(_) => page.fail(),
        }
    }
}

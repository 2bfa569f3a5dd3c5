//! The comparison of two versions of a struct, over files in memory.

use crate::case::{named, ran_over, shown};
use crate::row_text::text_of;
use crate::struct_case::{interface_of, two_files};
use std::alloc::{AllocError, Global};
use tars_base::MemFiles;

/// What comes of comparing a struct of these two interface files, of which the second may be absent.
fn outcome(alloc: Global, of: &str, old: &str, new: Option<&str>) -> Result<String, AllocError> {
    let mut files = vec![in alloc; named(alloc, "old.tars", old)?]?;
    if let Some(new) = new {
        files.push(named(alloc, "new.tars", new)?)?;
    }
    let arguments = format!(in alloc; "compat old.tars new.tars {of}")?;
    let files = MemFiles::new(files, Vec::new(alloc));
    let (status, text) = ran_over(alloc, &arguments, files, 0)?;
    shown(alloc, status, &text)
}

/// `STRUCT OLD | NEW`: this struct of two interface files. Without a bar there is no second file.
pub fn compare_struct(alloc: Global, row: &str) -> Result<String, AllocError> {
    let row = text_of(alloc, row)?;
    let (of, texts) = row.split_once(' ').unwrap_or((row.as_str(), ""));
    let (old, new) = two_files(texts);
    outcome(alloc, of, old, new)
}

/// `MEMBERS | MEMBERS`: structs of the old members and of the new ones.
pub fn compare_members(alloc: Global, row: &str) -> Result<String, AllocError> {
    let row = text_of(alloc, row)?;
    let (old, new) = two_files(&row);
    let old = interface_of(alloc, old)?;
    let new = interface_of(alloc, new.unwrap_or(""))?;
    outcome(alloc, "M::S", &old, Some(&new))
}

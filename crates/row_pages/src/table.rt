use crate::page::Page;
use std::{fs, io, str};

/// What comes of a row.
pub trait Rows {
    /// Adds what comes of a row.
    fn put_row(page: &mut Page, row: &str);
}

/// Prints what comes of a row.
fn print_row<R: Rows>(rt: &HostRuntime, row: &str) -> io::Result<()> {
    let mut page = Page::new(rt.alloc());
    R::put_row(&mut page, row);
    match page.into_text() {
        Ok(text) => println!(rt; "{text}"),
        Err(_) => println!(rt; "no memory"),
    }
}

/// Prints what comes of each row of the file of this name.
pub fn print_table<R: Rows>(rt: &HostRuntime, name: &str) -> io::Result<()> {
    let bytes = fs::read(rt, name)?;
    let Ok(text) = str::from_utf8(&bytes) else {
        return println!(rt; "{name}: no text");
    };
    for row in text.lines() {
        print_row::<R>(rt, row)?;
    }
    Ok(())
}

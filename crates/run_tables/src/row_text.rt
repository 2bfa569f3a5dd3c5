//! The text that a row's text stands for.

use std::alloc::{AllocError, Global};

/// What stands after a `~`: how often a piece comes, the piece, and what is left.
fn escaped(text: &str) -> (u32, &str, &str) {
    let (letter, rest) = text.split_at_checked(1).unwrap_or(("", ""));
    match letter {
        "n" => (1, "\n", rest),
        "r" => (1, "\r", rest),
        "s" => (1, " ", rest),
        "t" => (1, "\t", rest),
        _ => {
            let (count, more) = text.split_once('(').unwrap_or((text, ""));
            let (piece, rest) = more.split_once(')').unwrap_or((more, ""));
            (count.parse::<u32>().unwrap_or(0), piece, rest)
        }
    }
}

/// Appends what stands after a `~`.
fn push_escaped(all: &mut String, text: &str) -> Result<(), AllocError> {
    let (times, piece, rest) = escaped(text);
    for _ in 0..times {
        all.push_str(piece)?;
    }
    Ok(all.push_str(rest)?)
}

/// The text of a row. `~n`, `~r`, `~s` and `~t` stand for a line feed, a carriage return, a space and a tab, and
/// `~N(PIECE)` for so many times the piece.
pub fn text_of(alloc: Global, row: &str) -> Result<String, AllocError> {
    let (first, more) = row.split_once('~').unwrap_or((row, ""));
    let mut all = String::from_str(alloc, first)?;
    for text in more.split('~') {
        push_escaped(&mut all, text)?;
    }
    Ok(all)
}

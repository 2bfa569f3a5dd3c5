//! What programs need that print what comes of rows of data: the page of a row, the words of a row and the bytes that its
//! text stands for, and the walk over a table. Read `specs/Pages.antt` first.
#![tactic(auto)]

mod page;
mod row_text;
mod table;

pub use page::Page;
pub use row_text::{bytes_of, split_word};
pub use table::{Rows, print_table};

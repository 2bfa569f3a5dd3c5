//! The grammar of bytes: `scan` takes exactly the bodies of tagged fields, and else names the first byte
//! that is wrong, with the reason. What it takes can be walked by a `Cursor`, which copies nothing and
//! cannot fail. Numbers, texts and structs of an interface are for the caller. Read
//! `specs/Spelled.antt` first, beside docs/PROTOCOL.md ("Reading").
#![tactic(auto)]

mod checked;
mod cursor;
mod head;
mod head_context;
mod laws;
mod level;
mod prefix;
mod scanner;
mod stop;
mod wire_fault;
mod wire_type;

pub use checked::Checked;
pub use cursor::Cursor;
pub use head::Head;
pub use laws::{
    limits, no_spelling_begins_another, one_outcome, one_reading, one_remainder,
    short_is_at_the_end, spelled_is_body,
};
pub use prefix::{split_bytes, split_head, split_number, split_simple, split_size, split_text};
pub use scanner::scan;
pub use wire_fault::{WireFault, WireWhy};
pub use wire_type::{UnknownType, WireType};

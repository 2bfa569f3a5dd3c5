//! Past what stands on the wire, piece by piece: each function returns the bytes after the piece, or
//! where it stopped.

mod body;
mod contents;
mod heads;
mod numbers;

pub use body::scan;
pub use contents::past_contents;
pub use heads::read_head;

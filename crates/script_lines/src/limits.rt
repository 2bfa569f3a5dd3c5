//! The limits of a script (docs/SCRIPTS.md, "General scripts").

/// The longest line, in bytes, without its line feed.
pub const MAX_LINE: usize = 4096;

/// The most calls.
pub const MAX_CALLS: usize = 4096;

/// The most requests that a queue may be made for.
pub const MAX_CAPACITY: u32 = 10_000;

/// The longest time of a call or in a queue, in milliseconds: an hour.
pub const MAX_TIME: u32 = 3_600_000;

/// The line of the one caller.
pub const CALLER: u32 = 1;

/// The one node.
pub const NODE: u32 = 1;

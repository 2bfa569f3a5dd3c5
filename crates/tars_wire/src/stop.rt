use crate::wire_fault::WireWhy;

/// Where reading stopped, and why.
#[derive(Clone, Copy)]
pub struct Stop {
    /// How many bytes are left, from the first wrong one on. None for `Short`.
    pub left: usize,
    pub why: WireWhy,
}

/// The bytes ended.
pub const SHORT: Stop = Stop {
    left: 0,
    why: WireWhy::Short,
};

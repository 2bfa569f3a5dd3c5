use crate::kind::Kind;

/// The longest token at the start of bytes.
#[derive(Clone, Copy)]
pub struct Candidate<'a> {
    pub kind: Kind,
    /// Whether a whole number is in its range; true of other kinds.
    pub in_range: bool,
    pub rest: &'a [u8],
}

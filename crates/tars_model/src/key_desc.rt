use crate::{List, Name};

/// The members by which the values of a struct are sorted.
#[derive(Drop)]
pub struct KeyDesc {
    /// The struct, by its number in the schema.
    pub of: u32,
    pub members: List<Name>,
}

use std::alloc::Global;
use tars_model::Schema;

/// What readers of contents share.
#[derive(Clone, Copy)]
pub struct Scope<'s> {
    pub alloc: Global,
    pub schema: &'s Schema,
    /// One more than how many lists, maps and structs may be opened inside one another.
    pub room: u8,
}

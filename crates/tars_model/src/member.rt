use crate::{Name, Ty, Value};

/// A member of a struct, of a call's arguments or of its reply.
#[derive(Drop)]
pub struct Member {
    pub tag: u8,
    /// Whether a reader refuses a struct without this member; else it takes the default.
    pub require: bool,
    pub ty: Ty,
    pub name: Name,
    pub default: Value,
}

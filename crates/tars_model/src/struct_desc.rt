use crate::{List, Member, Name};

/// A struct, its members in the order of their tags.
#[derive(Drop)]
pub struct StructDesc {
    pub module: Name,
    pub name: Name,
    pub members: List<Member>,
}

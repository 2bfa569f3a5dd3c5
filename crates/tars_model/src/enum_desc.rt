use crate::{List, Name};

/// An enumerator.
#[derive(Drop)]
pub struct Item {
    pub name: Name,
    pub number: i32,
}

/// An enum, its enumerators in the order of the text.
#[derive(Drop)]
pub struct EnumDesc {
    pub module: Name,
    pub name: Name,
    pub items: List<Item>,
}

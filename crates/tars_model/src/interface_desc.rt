use crate::{FuncDesc, List, Name};

/// An interface: the functions that a servant answers.
#[derive(Drop)]
pub struct InterfaceDesc {
    pub module: Name,
    pub name: Name,
    pub funcs: List<FuncDesc>,
}

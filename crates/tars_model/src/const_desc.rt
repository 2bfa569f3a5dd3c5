use crate::{Name, Ty, Value};

/// A constant.
#[derive(Drop)]
pub struct ConstDesc {
    pub module: Name,
    pub name: Name,
    pub ty: Ty,
    pub value: Value,
}

use crate::Bytes8;
use sqlite_items::Items;

/// A value of a type.
#[cycle(value)]
#[derive(Drop)]
pub enum Value {
    Bool(bool),
    /// Of a whole-number type or an enum.
    Num(i64),
    Text(Bytes8),
    /// Of `vector<byte>`.
    Blob(Bytes8),
    /// Of another vector.
    List(Items<Value>),
    /// Keys rise.
    Map(Items<Pair>),
    /// A value for each member, in the order of the tags.
    Struct(Items<Value>),
}

/// An entry of a map.
#[cycle(value)]
#[derive(Drop)]
pub struct Pair {
    pub key: Value,
    pub value: Value,
}

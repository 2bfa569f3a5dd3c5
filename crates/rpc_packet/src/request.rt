use crate::TextPair;
use tars_model::{Bytes8, List};

/// A request (docs/PROTOCOL.md, "Packets").
#[derive(Drop)]
pub struct Request {
    pub version: i16,
    /// The packet type: 1 is a one-way call, any other number a normal one.
    pub kind: i8,
    /// The message type.
    pub message: i32,
    pub id: i32,
    /// The object's id.
    pub servant: Bytes8,
    pub func: Bytes8,
    /// The arguments.
    pub body: Bytes8,
    /// Milliseconds.
    pub timeout: i32,
    /// Keys rise.
    pub context: List<TextPair>,
    /// Keys rise.
    pub status: List<TextPair>,
}

use crate::TextPair;
use tars_model::{Bytes8, List};

/// A response (docs/PROTOCOL.md, "Packets").
#[derive(Drop)]
pub struct Response {
    pub version: i16,
    /// The packet type.
    pub kind: i8,
    pub id: i32,
    /// The message type.
    pub message: i32,
    /// The return code, 0 for success.
    pub ret: i32,
    /// What comes back.
    pub body: Bytes8,
    /// Keys rise.
    pub status: List<TextPair>,
    /// What is said of the result in words.
    pub note: Bytes8,
}

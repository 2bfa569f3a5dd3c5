use crate::CallId;
use tars_model::{Bytes8, List};

/// A frame that was sent, with the number of its call.
#[derive(Drop)]
pub struct SentRow {
    pub call: u32,
    pub frame: Bytes8,
}

/// What became of a packet that was received.
#[derive(Clone, Copy, PartialEq, Eq)]
pub enum GotFate {
    /// It settled the call with this id.
    Used { id: CallId },
    /// Its call was settled before; with the word of the call table that told so.
    Late { word: u64 },
}

/// A packet that was received.
#[derive(Drop)]
pub struct GotRow {
    pub packet: Bytes8,
    pub fate: GotFate,
}

/// Why nothing more passes on a link.
#[derive(Clone, Copy, PartialEq, Eq)]
pub enum Cut {
    /// It could not be read or written.
    Failed,
    /// It ended.
    Ended,
    /// The bytes at this offset give a length that no packet has.
    Length { at: u64, length: u32 },
    /// A packet is no response.
    Response,
    /// It was cut before.
    Down,
}

/// What passed on the link to a node.
#[derive(Drop)]
pub struct LinkLog {
    pub node: u32,
    pub sent: List<SentRow>,
    /// What was written of a frame that was not written whole.
    pub torn: Bytes8,
    pub got: List<GotRow>,
    /// What was read after the last whole packet.
    pub rest: Bytes8,
    /// Why it was cut, if it was.
    pub cut: Option<Cut>,
}

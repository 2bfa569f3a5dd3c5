//! The one node, until scripts have more.

use script_session::{PickNote, Why};

/// Its number.
pub(crate) const NODE: u32 = 1;

/// It is picked, and live.
pub(crate) const PICKED: PickNote = PickNote {
    node: NODE,
    why: Why::Live,
};

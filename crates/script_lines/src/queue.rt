ghost use Rattle.script_lines.specs.Meanings.{queue_meant};
ghost use Rattle.script_lines.specs.ScanSteps.{Gives};
ghost use Rattle.script_lines.specs.Views.{queue_of};

use crate::limits::{MAX_CAPACITY, MAX_TIME};
use crate::numbers::within;

/// The queue of each node.
#[derive(Clone, Copy)]
pub struct QueueWords {
    /// How many requests it holds, from 1 to 10,000.
    pub capacity: u32,
    /// How long one may wait, in milliseconds, from 1 to 3,600,000.
    pub timeout: u32,
}

impl QueueWords {
    /// What the numbers mean, if they are in range.
    #[tactic(auto, unfolding(crate::specs::Meanings::queue_meant))]
    pub(crate) fn read(capacity: &[u8], timeout: &[u8]) -> Option<QueueWords>
        ensures { Gives queue_of result (queue_meant capacity.now timeout.now) }
    {
        let capacity = within(capacity, 1, MAX_CAPACITY)?;
        let timeout = within(timeout, 1, MAX_TIME)?;
        Some(QueueWords { capacity, timeout })
    }
}

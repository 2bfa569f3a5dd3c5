ghost use Rattle.std.specs.Prelude.{◌≡◌};
ghost use Rattle.adapter_queue.specs.Queues.{taken_at};

use crate::taken::Taken;

/// An item, and the moment at which it was offered, in milliseconds.
#[derive(Drop)]
pub struct Timed<T> {
    pub item: T,
    pub entered: u32,
}

impl<T> Timed<T> {
    /// What it is for who takes it at the moment `now`.
    pub(crate) fn taken(self, timeout: u32, now: u32) -> Taken<T>
        ensures { result ≡ taken_at timeout now self }
    {
        let Timed { item, entered } = self;
        if u64::from(entered) + u64::from(timeout) < u64::from(now) {
            Taken::Stale(item)
        } else {
            Taken::Work(item)
        }
    }
}

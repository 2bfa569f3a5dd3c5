/// What a queue gives.
#[derive(Drop)]
pub enum Taken<T> {
    /// An item that waited no longer than the queue's timeout.
    Work(T),
    /// An item that waited longer.
    Stale(T),
}

/// The queue is full. This is the item that was offered; the queue did not change.
#[derive(Drop)]
pub struct Overload<T>(pub T);

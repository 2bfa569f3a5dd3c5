ghost use Rattle.std.specs.Prelude.{◌≡◌, ◌≤◌, ℕ, List, [], IfOk};
ghost use Rattle.adapter_queue.specs.Queues.{Queue, Offered, Took};
ghost use Rattle.adapter_queue.specs.Histories.{IsAfter, AcceptedNext, TookNext};
ghost use Rattle.adapter_queue.specs.declared.timed.Timed.{Timed};

use crate::taken::{Overload, Taken};
use crate::timed::Timed;
use std::alloc::{AllocError, Global};
use std::collections::VecDeque;
use std::marker::Model;

/// A queue for one thread: first in, first out.
#[derive(Drop)]
pub struct OneQueue<T> {
    /// The most items that it holds.
    capacity: u32,
    /// How long an item may wait, in milliseconds.
    timeout: u32,
    items: VecDeque<Timed<T>>,
}

impl<T> Model for OneQueue<T> {
    ghost use Rattle.std.specs.Prelude.{◌≤◌, length};
    ghost use Rattle.std.specs.VecDeque.{deque_len, deque_capacity};
    ghost use Rattle.adapter_queue.specs.Queues.{Queue};

    ghost Value = { Queue T };

    ghost view = { λ q. record { capacity = q.capacity; timeout = q.timeout; items = q.items.items } };

    ghost invariant = { λ q. (deque_len q.items ≤ q.capacity) × (q.capacity ≤ deque_capacity q.items) };
}

impl<T> OneQueue<T> {
    /// An empty queue of at most `capacity` items, each of which may wait for `timeout` milliseconds. It takes room for all of them.
    pub fn new(alloc: Global, capacity: u32, timeout: u32) -> Result<OneQueue<T>, AllocError>
        requires { 1 ≤ capacity }
        ensures made { IfOk result (λ queue. queue ≡ record { capacity = capacity; timeout = timeout; items = [] }) }
        ensures first { IfOk result (λ queue. IsAfter [] 0 queue) }
    {
        let items = VecDeque::with_capacity(alloc, capacity as usize)?;
        Ok(OneQueue {
            capacity,
            timeout,
            items,
        })
    }

    /// Adds an item that comes at the moment `now`, in milliseconds. Takes no memory.
    pub fn offer(&mut self, item: T, now: u32) -> Result<(), Overload<T>>
        ensures offered { Offered self.old item now self.new result }
        ensures after { (accepted : List (Timed T)) (taken : ℕ) → IsAfter accepted taken self.old
            → AcceptedNext accepted taken item now self.new result }
    {
        if self.items.len() >= self.capacity as usize {
            return Err(Overload(item));
        }
        self.items.push_back_reserved(Timed { item, entered: now });
        Ok(())
    }

    /// Takes the item that has waited for the longest time, at the moment `now` in milliseconds. Takes no memory.
    pub fn take(&mut self, now: u32) -> Option<Taken<T>>
        ensures took { Took self.old now self.new result }
        ensures after { (accepted : List (Timed T)) (taken : ℕ) → IsAfter accepted taken self.old
            → TookNext accepted taken now self.old.timeout self.new result }
    {
        self.take_first(now)
    }

    fn take_first(&mut self, now: u32) -> Option<Taken<T>>
        ensures { Took self.old now self.new result }
    {
        let first = self.items.pop_front()?;
        Some(first.taken(self.timeout, now))
    }
}

#[cfg(test)]
mod tests {
    use super::*;
    use std::test::Fail;

    #[test]
    fn items_leave_in_the_order_in_which_they_came(rt: HostRuntime) -> Result<(), Fail> {
        let mut queue: OneQueue<u32> = OneQueue::new(rt.alloc(), 2, 100)?;
        assert!(rt; queue.offer(7, 1000).is_ok());
        assert!(rt; queue.offer(8, 1000).is_ok());
        assert!(rt; matches!(queue.offer(9, 1001), Err(Overload(9))));
        assert!(rt; matches!(queue.take(1100), Some(Taken::Work(7))));
        assert!(rt; matches!(queue.take(1101), Some(Taken::Stale(8))));
        assert!(rt; queue.take(1102).is_none());
        Ok(())
    }
}

ghost use Rattle.std.specs.Prelude.{◌≡◌, ◌<◌, ◌≤◌, ◌+◌, ℕ, [], Some, max, length, IfOk, OnOk, OnErr, IsTrue};
ghost use Rattle.std.specs.Result.{is_err, result_unwrap_or};
ghost use Rattle.tars_base.specs.Calls.{no_calls, counted};
ghost use Rattle.tars_base.specs.Causes.{HasCause};
ghost use Rattle.tars_base.specs.Contents.{WriteAppends};
ghost use Rattle.tars_base.specs.MemSink.{refuses, taken_of};

use crate::failing_calls::FailingCalls;
use crate::{Failed, Memory, Sink};
use std::alloc::Global;
use std::marker::Model;

/// A sink that keeps its bytes in room that is taken beforehand.
#[derive(Drop)]
pub struct MemSink {
    held: Vec<u8>,
    left: usize,
    most: usize,
    writes: FailingCalls,
}

impl Model for MemSink {
    ghost use Rattle.std.specs.Prelude.{◌<◌, ◌≤◌, ◌+◌, vec_len, vec_capacity};
    ghost use Rattle.tars_base.specs.MemSink.{SinkState};

    ghost Value = { SinkState };

    ghost view = { λ s. record { bytes = s.held.items; room = s.left; step = s.most; calls = s.writes } };

    ghost invariant = { λ s. (0 < s.most) × (vec_len s.held + s.left ≤ vec_capacity s.held) };
}

impl MemSink {
    /// A sink with no room yet. A write takes at most `step` bytes; `failing` has the numbers of the
    /// writes that are to fail, counted from 1.
    pub fn new(alloc: Global, step: usize, failing: Vec<u64>) -> Self
        requires { 0 < step }
        ensures state { result
            ≡ record { bytes = []; room = 0; step = step; calls = no_calls failing.items } }
        ensures told { ⟦<MemSink as Sink>⟧.written result ≡ Some [] }
        ensures no_faults { ⟦<MemSink as Sink>⟧.faults result ≡ 0 }
    {
        MemSink {
            held: Vec::new(alloc),
            left: 0,
            most: step,
            writes: FailingCalls::new(failing),
        }
    }

    /// Makes room for at least `n` bytes more, by the allocator that the sink was made with.
    pub fn reserve(&mut self, _alloc: Global, n: usize) -> Result<(), Memory>
        ensures ok { OnOk result (self.new ≡ record self.old { room = max self.old.room n }) }
        ensures err { OnErr result (self.new ≡ self.old) }
    {
        let room = self.left.max(n);
        self.held.reserve(room)?;
        self.left = room;
        Ok(())
    }

    /// All that was written.
    pub fn bytes(&self) -> &[u8]
        ensures { result.now ≡ self.now.bytes }
    {
        &self.held
    }
}

impl Sink for MemSink {
    ghost written = { λ s. Some s.bytes };

    ghost faults = { λ s. s.calls.faults };

    fn write(&mut self, piece: &[u8]) -> Result<usize, Failed>
        ensures within { IfOk result (λ n. n ≤ length piece.now) }
        ensures progress { IfOk result (λ n. 0 < length piece.now → 0 < n) }
        ensures bytes { WriteAppends (Some self.old.bytes) (Some self.new.bytes) result piece.now }
        ensures cause { HasCause self.old.calls.faults self.new.calls.faults result }

        // Which writes fail, how they are counted, and how much the others take.
        ensures failed { is_err result ≡ refuses self.old (length piece.now) }
        ensures calls { self.new.calls ≡ counted self.old.calls (refuses self.old (length piece.now)) }
        ensures taken { IfOk result (λ n. n ≡ taken_of self.old (length piece.now)) }
        ensures room { self.new.room + result_unwrap_or result 0 ≡ self.old.room }
        ensures step { self.new.step ≡ self.old.step }
    {
        if self.writes.next_fails() {
            return Err(Failed);
        }
        let taken = piece.len().min(self.most).min(self.left);
        if taken == 0 && !piece.is_empty() {
            self.writes.add_fault();
            return Err(Failed);
        }
        self.held.extend_from_slice(&piece[..taken]).unwrap();
        self.left -= taken;
        Ok(taken)
    }
}

ghost use Rattle.std.specs.Prelude.{◌≡◌, ◌≤◌, IsTrue};
ghost use Rattle.tars_base.specs.Calls.{no_calls, fails_next, with_fault, counted};
ghost use Rattle.tars_base.specs.Causes.{Rose};

use std::marker::Model;

/// Calls that are counted from 1, of which those of some numbers are to fail.
#[derive(Drop)]
pub(crate) struct FailingCalls {
    numbers: Vec<u64>,
    made: u64,
    fault_count: u64,
}

impl Model for FailingCalls {
    ghost use Rattle.tars_base.specs.Calls.{Calls};

    ghost Value = { Calls };

    ghost view = { λ c. record { failing = c.numbers.items; made = c.made; faults = c.fault_count } };
}

impl FailingCalls {
    pub(crate) fn new(numbers: Vec<u64>) -> Self
        ensures { result ≡ no_calls numbers.items }
    {
        FailingCalls {
            numbers,
            made: 0,
            fault_count: 0,
        }
    }

    /// Counts a call, and says whether it is to fail.
    pub(crate) fn next_fails(&mut self) -> bool
        ensures answer { result ≡ fails_next self.old }
        ensures after { self.new ≡ counted self.old (fails_next self.old) }
        ensures later { self.old.faults ≤ self.new.faults }
        ensures rose { IsTrue result → Rose self.old.faults self.new.faults }
    {
        self.made = self.made.saturating_add(1);
        let fails = self.numbers.contains(&self.made);
        if fails {
            self.fault_count = self.fault_count.saturating_add(1);
        }
        fails
    }

    /// Counts a fault of the last call, beside those that were to fail.
    pub(crate) fn add_fault(&mut self)
        ensures after { self.new ≡ with_fault self.old }
        ensures later { self.old.faults ≤ self.new.faults }
        ensures rose { Rose self.old.faults self.new.faults }
    {
        self.fault_count = self.fault_count.saturating_add(1);
    }
}

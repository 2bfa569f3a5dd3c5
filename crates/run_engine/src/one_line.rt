//! A table of one line of eight, whose calls stay until the end.

ghost use Rattle.std.specs.Prelude.{◌≡◌, false, [], Some, map, MatchOption, IfOk};
ghost use Rattle.std.specs.List.{list_any};
ghost use Rattle.run_engine.specs.Claims.{is_open_claim};
ghost use Rattle.run_engine.specs.OneLines.{IsLine, claims_from, IsOpenAt, closed_call, fate_in};

use crate::claims::Claims;
use crate::fate::Fate;
use std::alloc::{AllocError, Global};

/// How many calls of the line may be in flight.
const WIDTH: usize = 8;

/// A call that was opened.
#[derive(Drop)]
struct Opened {
    node: u32,
    deadline: u32,
    /// What ended it; None while it is open.
    fate: Option<Fate>,
}

impl Opened {
    /// Ends the call if it is open.
    fn close(&mut self)
        ensures { self.new ≡ closed_call self.old }
    {
        if self.fate.is_none() {
            self.fate = Some(Fate::Closed);
        }
    }

    fn settle(&mut self, fate: Fate)
        ensures { self.new ≡ record self.old { fate = Some fate } }
    {
        self.fate = Some(fate);
    }
}

/// Ends each call that is open.
fn close_all(calls: &mut Vec<Opened>)
    ensures { calls.new.items ≡ map closed_call calls.old.items }
{
    for call in calls.iter_mut() {
        call.close();
    }
}

/// What ended a call.
fn fate_of(call: Opened) -> Option<Fate>
    ensures { result ≡ fate_in call }
{
    let Opened { fate, .. } = call;
    fate
}

fn fates_of(alloc: Global, calls: Vec<Opened>) -> Result<Vec<Option<Fate>>, AllocError>
    ensures { IfOk result (λ fates. fates.items ≡ map fate_in calls.items) }
{
    let fates: Vec<Option<Fate>> = calls.into_iter().map(fate_of).collect(alloc)?;
    Ok(fates)
}

/// The calls of the line. The ids are their places, from 1.
#[derive(Drop)]
pub(crate) struct OneLine {
    calls: Vec<Opened>,
}

impl OneLine {
    pub fn new(alloc: Global) -> OneLine
        ensures { IsLine result.calls.items [] }
    {
        OneLine {
            calls: Vec::new(alloc),
        }
    }

    /// The place of the call that is open under an id.
    fn open_index(&self, id: u32) -> Option<usize>
        ensures { MatchOption result (list_any (is_open_claim id) (claims_from 1 self.now.calls.items) ≡ false) (λ k. IsOpenAt id self.now.calls.items k) }
    {
        let index = (id as usize).checked_sub(1)?;
        let call = self.calls.get(index)?;
        if call.fate.is_some() {
            return None;
        }
        Some(index)
    }
}

impl Claims for OneLine {
    ghost use Rattle.run_engine.specs.OneLines.{IsLine};

    ghost IsOf = { λ table claims. IsLine table.calls.items claims };

    fn is_full(&self, _line: u32) -> bool {
        self.calls.len() >= WIDTH
    }

    fn open_call(&mut self, _line: u32, node: u32, deadline: u32) -> Result<u32, AllocError> {
        let id = self.calls.len() as u32 + 1;
        let fate = None;
        self.calls.push(Opened {
            node,
            deadline,
            fate,
        })?;
        Ok(id)
    }

    fn settle(&mut self, id: u32, fate: Fate) -> bool {
        let Some(index) = self.open_index(id) else {
            return false;
        };
        self.calls[index].settle(fate);
        true
    }

    fn close(&mut self) {
        close_all(&mut self.calls);
    }

    fn into_fates(self, alloc: Global) -> Result<Vec<Option<Fate>>, AllocError> {
        let OneLine { calls } = self;
        fates_of(alloc, calls)
    }
}

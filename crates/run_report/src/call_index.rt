ghost use Rattle.std.specs.Prelude.{◌≡◌, ◌∷◌, List, IfOk, OnOk};
ghost use Rattle.script_session.specs.declared.report.Row.{Row as CallRow};
ghost use Rattle.run_report.specs.CallNumbers.{number_in, HasCalls};

use indexmap::IndexMap;
use script_session::{CallId, Row};
use std::alloc::{AllocError, Global};
use std::marker::Model;

/// The number of the call of each id, and 0 for an id that no call has.
#[derive(Drop)]
pub struct CallIndex {
    calls: IndexMap<u32, u32>,
}

impl Model for CallIndex {
    ghost use Rattle.std.specs.Prelude.{List, ℕ};

    ghost Value = { List (ℕ × ℕ) };

    ghost view = { λ index. index.calls.entries };
}

impl CallIndex {
    pub fn of(alloc: Global, rows: &[Row]) -> Result<CallIndex, AllocError>
        ensures { IfOk result (λ index. HasCalls rows.now index) }
    {
        let mut index = CallIndex {
            calls: IndexMap::with_capacity(alloc, rows.len())?,
        };
        let mut rest = rows;
        // From the last row on, so that the first one with an id counts.
        while let [before @ .., row] = rest {
            index.add(row)?;
            rest = before;
        }
        Ok(index)
    }

    /// Puts a row before the others.
    fn add(&mut self, row: &Row) -> Result<(), AllocError>
        ensures { (rows : List CallRow) → HasCalls rows self.old → OnOk result (HasCalls (row.now ∷ rows) self.new) }
    {
        if let Some(CallId(id)) = row.id {
            self.calls.insert(id, row.call)?;
        }
        Ok(())
    }

    pub fn call(&self, id: CallId) -> u32
        ensures { result ≡ number_in self.now id }
    {
        self.calls.get(&id.0).copied().unwrap_or(0)
    }
}

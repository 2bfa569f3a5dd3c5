ghost use Rattle.std.specs.Prelude.{◌≡◌, ◌∷◌, ◌++◌, [], not, if◌then◌else◌, IfOk, OnOk};
ghost use Rattle.std.specs.List.{list_any};
ghost use Rattle.std.specs.Str.{bytes_eq};

use indexmap::IndexSet;
use std::alloc::{AllocError, Global};
use std::marker::Model;

/// Names that stood before.
#[derive(Drop)]
pub struct NameSet<'a> {
    names: IndexSet<&'a [u8]>,
}

impl<'a> Model for NameSet<'a> {
    ghost use Rattle.std.specs.Prelude.{List, ℕ, map};

    ghost Value = { List (List ℕ) };

    ghost view = { λ s. map (λ name. name.now) s.names.keys };
}

impl<'a> NameSet<'a> {
    pub fn new(alloc: Global) -> NameSet<'a>
        ensures { result ≡ [] }
    {
        NameSet {
            names: IndexSet::new(alloc),
        }
    }

    /// Adds a name. Returns whether it is new.
    pub fn insert(&mut self, name: &'a [u8]) -> Result<bool, AllocError>
        ensures new { IfOk result (λ new. new ≡ not (list_any (bytes_eq name.now) self.old)) }
        ensures seen { OnOk result (self.new ≡ (if list_any (bytes_eq name.now) self.old then self.old else self.old ++ name.now ∷ [])) }
    {
        let new = self.names.insert(name)?;
        Ok(new)
    }
}

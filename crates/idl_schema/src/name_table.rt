//! Names in the order of their numbers.

ghost use Rattle.std.specs.Prelude.{◌≡◌, ◌<◌, length, IfSome, [], ◌∷◌, ◌++◌, false, OnOk};
ghost use Rattle.std.specs.List.{list_any, position_from};
ghost use Rattle.idl_schema.specs.Naming.{is_name};

use indexmap::IndexSet;
use std::alloc::{AllocError, Global};
use std::marker::Model;

/// A name in a module.
#[derive(Clone, Copy, PartialEq, Eq, Hash, Drop)]
pub(crate) struct Key<'a> {
    pub home: &'a [u8],
    pub name: &'a [u8],
}

/// Names that differ, each numbered by its place among them and found by its hash.
#[derive(Drop)]
pub(crate) struct NameTable<'a> {
    keys: IndexSet<Key<'a>>,
}

impl<'a> Model for NameTable<'a> {
    ghost use Rattle.std.specs.Prelude.{List, ℕ, map};

    ghost Value = { List (List ℕ × List ℕ) };

    ghost view = { λ t. map (λ k. (k.home.now, k.name.now)) t.keys.keys };
}

impl<'a> NameTable<'a> {
    pub fn new(alloc: Global) -> NameTable<'a>
        ensures { result ≡ [] }
    {
        NameTable {
            keys: IndexSet::new(alloc),
        }
    }

    /// The number of that name in that module.
    pub fn number(&self, home: &'a [u8], name: &'a [u8]) -> Option<usize>
        ensures number { result ≡ position_from (is_name home.now name.now) 0 self.now }
        ensures within { IfSome result (λ number. number < length self.now) }
    {
        self.keys.get_index_of(&Key { home, name })
    }

    /// Adds a name that is not there yet.
    pub fn add(&mut self, home: &'a [u8], name: &'a [u8]) -> Result<(), AllocError>
        requires { list_any (is_name home.now name.now) self.old ≡ false }
        ensures { OnOk result (self.new ≡ self.old ++ (home.now, name.now) ∷ []) }
    {
        self.keys.insert(Key { home, name })?;
        Ok(())
    }
}

ghost use Rattle.std.specs.Prelude.{◌≡◌, [], not, IfOk, OnOk};
ghost use Rattle.std.specs.List.{list_any};
ghost use Rattle.std.specs.Str.{bytes_eq};
ghost use Rattle.idl_scene.specs.Known.{once_more};

use indexmap::IndexSet;
use std::alloc::{AllocError, Global};
use std::marker::Model;

/// Words that stood before.
#[derive(Drop)]
pub struct WordSet<'a> {
    set: IndexSet<&'a [u8]>,
}

impl<'a> Model for WordSet<'a> {
    ghost use Rattle.std.specs.Prelude.{List, ℕ, map};

    ghost Value = { List (List ℕ) };

    ghost view = { λ w. map (λ k. k.now) w.set.keys };
}

impl<'a> WordSet<'a> {
    pub fn new(alloc: Global) -> WordSet<'a>
        ensures { result ≡ [] }
    {
        WordSet {
            set: IndexSet::new(alloc),
        }
    }

    /// Adds a word. Returns whether it is new.
    pub fn insert(&mut self, word: &'a [u8]) -> Result<bool, AllocError>
        ensures new { IfOk result (λ new. new ≡ not (list_any (bytes_eq word.now) self.old)) }
        ensures seen { OnOk result (self.new ≡ once_more self.old word.now) }
    {
        let new = self.set.insert(word)?;
        Ok(new)
    }

    /// Whether a word is among them.
    pub fn contains(&self, word: &'a [u8]) -> bool
        ensures { result ≡ list_any (bytes_eq word.now) self.now }
    {
        self.set.contains(&word)
    }
}

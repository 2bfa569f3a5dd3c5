//! What is known of names.

ghost use Rattle.std.specs.Prelude.{◌≡◌, None, [], ◌∷◌, ◌++◌, OnOk};
ghost use Rattle.idl_scene.specs.Known.{find};
ghost use Rattle.idl_scene.specs.KnownSteps.{meant, known_entry};

use crate::word_set::WordSet;
use indexmap::IndexMap;
use std::alloc::{AllocError, Global};
use std::marker::Model;

/// How many more declarations of each sort there may be.
#[derive(Clone, Copy, Debug, PartialEq, Eq)]
pub struct Room {
    pub structs: u16,
    pub enums: u16,
    pub consts: u16,
    pub interfaces: u16,
}

/// A name in a module.
#[derive(Clone, Copy, PartialEq, Eq, Hash, Drop)]
pub(crate) struct Key<'a> {
    pub home: &'a [u8],
    pub name: &'a [u8],
}

/// What a name was declared as.
#[derive(Drop)]
pub enum Meaning<'a> {
    Struct {
        /// At most 33.
        depth: u8,
        /// How many values its default has, at most 1,025.
        size: u16,
        /// The names of its members.
        members: WordSet<'a>,
    },
    /// The names of its enumerators.
    Enum(WordSet<'a>),
    NoType,
}

/// The names that are declared so far, each as it was declared first.
#[derive(Drop)]
pub struct Names<'a> {
    table: IndexMap<Key<'a>, Meaning<'a>>,
}

impl<'a> Model for Names<'a> {
    ghost use Rattle.std.specs.Prelude.{List, map};
    ghost use Rattle.idl_scene.specs.Known.{Known};
    ghost use Rattle.idl_scene.specs.KnownSteps.{known_entry};

    ghost Value = { List Known };

    ghost view = { λ n. map (λ e. known_entry e.0.home.now e.0.name.now e.1) n.table.entries };
}

impl<'a> Names<'a> {
    pub fn new(alloc: Global) -> Names<'a>
        ensures { result ≡ [] }
    {
        Names {
            table: IndexMap::new(alloc),
        }
    }

    /// What a name means in a module.
    pub fn find(&self, home: &'a [u8], name: &'a [u8]) -> Option<&Meaning<'a>>
        ensures { meant result ≡ find home.now name.now self.now }
    {
        self.table.get(&Key { home, name })
    }

    /// Adds a name that is not known yet.
    pub fn add(
        &mut self,
        home: &'a [u8],
        name: &'a [u8],
        meaning: Meaning<'a>,
    ) -> Result<(), AllocError>
        requires { find home.now name.now self.old ≡ None }
        ensures { OnOk result (self.new ≡ self.old ++ known_entry home.now name.now meaning.entry ∷ []) }
    {
        self.table.insert(Key { home, name }, meaning)?;
        Ok(())
    }
}

ghost use Rattle.std.specs.Prelude.{◌≡◌};
ghost use Rattle.std.specs.List.{list_any};
ghost use Rattle.std.specs.Str.{bytes_eq};
ghost use Rattle.idl_load.specs.Loading.{nothing_begun};

use idl_parse::Ast;
use std::alloc::Global;
use tars_model::{List, Name};

/// How far loading has come.
#[derive(Drop)]
pub struct Progress {
    /// The names of the files that were begun.
    pub begun: List<Name>,
    /// The files that are done, each after those that it includes.
    pub done: List<Ast>,
}

impl Progress {
    pub fn new(alloc: Global) -> Progress
        ensures { result ≡ nothing_begun }
    {
        Progress {
            begun: List::new(alloc),
            done: List::new(alloc),
        }
    }

    /// Whether the file of this name was begun.
    pub fn has_begun(&self, name: &[u8]) -> bool
        ensures { result ≡ list_any (bytes_eq name.now) self.now.begun }
    {
        self.begun
            .as_slice()
            .iter()
            .any(|own| name == own.as_slice())
    }
}

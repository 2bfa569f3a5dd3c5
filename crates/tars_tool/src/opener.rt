ghost use Rattle.std.specs.Prelude.{None, Option, IfOk};
ghost use Rattle.tars_base.specs.Contents.{Contents};
ghost use Rattle.tars_tool.specs.Sources.{IsSourceOf};

use std::fs::File;
use std::io;
use std::io::Read;

/// What opens files by their names.
pub trait Opener {
    /// An open file.
    type Source: Read + Drop;

    /// What the files hold, where that is told.
    ghost contents: { Self → Option Contents };

    fn open(&self, name: &str) -> io::Result<Self::Source>
        ensures { IfOk result (λ source. IsSourceOf (contents self.now) name.now (Self.Source.remaining source)) };
}

/// The system, which tells nothing of its files.
#[derive(Drop)]
pub struct System<'a> {
    rt: &'a HostRuntime,
}

impl<'a> System<'a> {
    pub fn new(rt: &'a HostRuntime) -> System<'a> {
        System { rt }
    }
}

impl<'a> Opener for System<'a> {
    type Source = File;

    ghost contents = { λ _. None };

    fn open(&self, name: &str) -> io::Result<File> {
        File::open(self.rt, name)
    }
}

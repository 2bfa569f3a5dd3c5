ghost use Rattle.std.specs.Prelude.{◌≡◌, ◌≤◌, ◌↔◌, ◌==◌, ℕ, Some, map, IfOk, IsTrue, IsErrOf, vec_len, option_copied};
ghost use Rattle.tars_base.specs.Calls.{no_calls, counted};
ghost use Rattle.tars_base.specs.Causes.{HasCauseOf};
ghost use Rattle.tars_base.specs.Contents.{IsPrefixOfFile};
ghost use Rattle.tars_base.specs.MemFiles.{contents_of, named};

use crate::failing_calls::FailingCalls;
use crate::{Files, NamedFile, ReadFault};
use std::alloc::Global;
use std::marker::Model;

/// Files in memory. Of two files of one name the first is read.
#[derive(Drop)]
pub struct MemFiles {
    items: Vec<NamedFile>,
    reads: FailingCalls,
}

impl Model for MemFiles {
    ghost use Rattle.std.specs.Prelude.{map};
    ghost use Rattle.tars_base.specs.MemFiles.{FilesState, named};

    ghost Value = { FilesState };

    ghost view = { λ m. record { files = map named m.items.items; calls = m.reads } };
}

impl MemFiles {
    ghost use Rattle.tars_base.specs.MemFiles.{named};

    /// `failing` has the numbers of the reads that are to fail, counted from 1.
    pub fn new(files: Vec<NamedFile>, failing: Vec<u64>) -> Self
        ensures files { result.files ≡ map named files.items }
        ensures calls { result.calls ≡ no_calls failing.items }
        ensures told { ⟦<MemFiles as Files>⟧.contents result
            ≡ Some (contents_of (map named files.items)) }
        ensures no_faults { ⟦<MemFiles as Files>⟧.faults result ≡ 0 }
    {
        MemFiles {
            items: files,
            reads: FailingCalls::new(failing),
        }
    }

    /// The files, in the order in which they were given.
    pub fn files(&self) -> &[NamedFile]
        ensures { map named result.now ≡ self.now.files }
    {
        &self.items
    }
}

// The bytes of the first file of a name.
fn bytes_of<'a>(files: &'a [NamedFile], name: &str) -> Option<&'a [u8]>
    ensures { option_copied result ≡ contents_of (map named files.now) name.now }
{
    for file in files {
        if file.name.as_str() == name {
            return Some(&file.bytes);
        }
    }
    None
}

impl Files for MemFiles {
    ghost use Rattle.tars_base.specs.MemFiles.{fails_at};

    ghost contents = { λ m. Some (contents_of m.files) };

    ghost faults = { λ m. m.calls.faults };

    fn read(&mut self, alloc: Global, name: &str, most: usize) -> Result<Vec<u8>, ReadFault>
        ensures bytes { IfOk result
            (λ bytes. IsPrefixOfFile (Some (contents_of self.old.files)) name.now most bytes.items) }
        ensures within { IfOk result (λ bytes. vec_len bytes ≤ most) }
        ensures same { self.new.files ≡ self.old.files }
        ensures cause { HasCauseOf ReadFault.Failed self.old.calls.faults self.new.calls.faults result }

        // Which reads fail, and how they are counted.
        ensures failed { IsErrOf result ReadFault.Failed ↔ IsTrue (fails_at self.old name.now) }
        ensures calls { self.new.calls ≡ counted self.old.calls (fails_at self.old name.now) }
    {
        if self.reads.next_fails() {
            return Err(ReadFault::Failed);
        }
        let Some(bytes) = bytes_of(&self.items, name) else {
            self.reads.add_fault();
            return Err(ReadFault::Failed);
        };
        Ok(bytes[..bytes.len().min(most)].to_vec(alloc)?)
    }
}

ghost use Rattle.std.specs.Prelude.{◌≡◌, ◌≤◌, ℕ, Option, IfOk, vec_len};
ghost use Rattle.tars_base.specs.Causes.{HasCauseOf};
ghost use Rattle.tars_base.specs.Contents.{Contents, IsPrefixOfFile};

use crate::ReadFault;
use std::alloc::Global;

/// How many bytes a file may have that the program reads.
pub const MAX_FILE: usize = 1_048_576;

/// Files that are read whole, or up to a length.
pub trait Files {
    /// What the files hold, where that is told.
    ghost contents: { Self → Option Contents };

    /// How often a read has failed.
    ghost faults: { Self → ℕ };

    /// The first `most` bytes of a file, or all of them if it has fewer.
    fn read(&mut self, alloc: Global, name: &str, most: usize) -> Result<Vec<u8>, ReadFault>
        ensures bytes { IfOk result
            (λ bytes. IsPrefixOfFile (contents self.old) name.now most bytes.items) }
        ensures within { IfOk result (λ bytes. vec_len bytes ≤ most) }
        ensures same { contents self.new ≡ contents self.old }
        ensures cause { HasCauseOf ReadFault.Failed (faults self.old) (faults self.new) result };
}

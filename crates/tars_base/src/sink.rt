ghost use Rattle.std.specs.Prelude.{◌≡◌, ◌<◌, ◌≤◌, ℕ, List, Option, length, IfOk, OnOk, OnErr};
ghost use Rattle.tars_base.specs.Causes.{HasCause};
ghost use Rattle.tars_base.specs.Contents.{Appends, AppendsPrefix, WriteAppends};

use crate::Failed;

/// Where bytes are written, one piece after the other.
pub trait Sink {
    /// All that was written, where that is told.
    ghost written: { Self → Option (List ℕ) };

    /// How often a write has failed.
    ghost faults: { Self → ℕ };

    /// Appends the first bytes of the piece, and returns how many.
    fn write(&mut self, piece: &[u8]) -> Result<usize, Failed>
        ensures within { IfOk result (λ n. n ≤ length piece.now) }
        ensures progress { IfOk result (λ n. 0 < length piece.now → 0 < n) }

        // After an error nothing was appended.
        ensures bytes { WriteAppends (written self.old) (written self.new) result piece.now }
        ensures cause { HasCause (faults self.old) (faults self.new) result };
}

/// Writes a text to its end, in as many pieces as the sink takes.
pub fn write_all<S: Sink>(out: &mut S, text: &[u8]) -> Result<(), Failed>
    ensures all { OnOk result (Appends (S.written out.old) (S.written out.new) text.now) }
    ensures prefix { OnErr result (AppendsPrefix (S.written out.old) (S.written out.new) text.now) }
    ensures cause { HasCause (S.faults out.old) (S.faults out.new) result }
{
    let mut rest = text;
    while !rest.is_empty() {
        let taken = out.write(rest)?;
        rest = &rest[taken..];
    }
    Ok(())
}

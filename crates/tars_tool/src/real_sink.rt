ghost use Rattle.std.specs.Prelude.{◌≡◌};

use std::io::Write;
use tars_base::{Failed, Sink};

/// A writer of the system as a sink. Standard output tells no contract what it holds; a writer that
/// does is held to it.
#[derive(Drop)]
pub struct RealSink<W> {
    out: W,
    fault_count: u64,
}

impl<W: Write> RealSink<W> {
    pub fn new(out: W) -> RealSink<W>
        ensures out { result.out ≡ out }
        ensures no_faults { result.fault_count ≡ 0 }
    {
        RealSink {
            out,
            fault_count: 0,
        }
    }
}

impl<W: Write> Sink for RealSink<W> {
    ghost written = { λ sink. W.contents sink.out };

    ghost faults = { λ sink. sink.fault_count };

    /// Each write goes to the system at once, so nothing is left to be flushed.
    fn write(&mut self, piece: &[u8]) -> Result<usize, Failed> {
        match self.out.write(piece) {
            Ok(taken) if taken > 0 || piece.is_empty() => Ok(taken),
            _ => {
                self.fault_count = self.fault_count.saturating_add(1);
                Err(Failed)
            }
        }
    }
}

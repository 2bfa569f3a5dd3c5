ghost use Rattle.std.specs.Prelude.{◌≡◌, [], ◌∷◌, IfOk};
ghost use Rattle.tars_decode.specs.Reads.{under};
ghost use Rattle.tars_decode.specs.ReadingSteps.{IsUnder};
ghost use Rattle.tars_decode.specs.declared.halt.Halt.TheVariants.{Memory, Refused};
ghost use Rattle.tars_decode.specs.declared.halt.Refusal.TheVariants.{Mismatch};

use crate::refuse::Misfit;
use std::alloc::{AllocError, Global};
use tars_model::List;

/// Why members have no values, with the path from where reading began.
#[derive(Drop)]
pub enum Refusal {
    Missing { path: List<u32> },
    Mismatch { path: List<u32>, why: Misfit },
}

/// Where reading ended.
#[derive(Drop)]
pub enum Halt {
    Memory,
    /// The bytes are no body.
    Stopped,
    Refused(Refusal),
}

/// What was read, and the bytes after it.
pub type Walk<'a, T> = Result<(T, &'a [u8]), Halt>;

impl From<AllocError> for Halt {
    ghost from_gives = { λ _ e. e ≡ Memory };

    fn from(_e: AllocError) -> Halt {
        Halt::Memory
    }
}

/// A value that does not fit where reading began.
pub fn misfit(alloc: Global, why: Misfit) -> Halt
    ensures { result ≡ Refused (Mismatch [] why) }
{
    let path = List::new(alloc);
    Halt::Refused(Refusal::Mismatch { path, why })
}

/// The path with a step before it.
fn longer(alloc: Global, step: u32, path: List<u32>) -> Result<List<u32>, AllocError>
    ensures { IfOk result (λ steps. steps ≡ step ∷ path) }
{
    let mut steps = List::new(alloc);
    steps.push(step)?;
    steps.append(path)?;
    Ok(steps)
}

impl Refusal {
    fn under(self, alloc: Global, step: u32) -> Result<Refusal, AllocError>
        ensures { IfOk result (λ refusal. refusal ≡ under step self) }
    {
        match self {
            Refusal::Missing { path } => {
                let path = longer(alloc, step, path)?;
                Ok(Refusal::Missing { path })
            }
            Refusal::Mismatch { path, why } => {
                let path = longer(alloc, step, path)?;
                Ok(Refusal::Mismatch { path, why })
            }
        }
    }
}

impl Halt {
    /// The same, seen from one step further out.
    #[cold]
    pub fn under(self, alloc: Global, step: u32) -> Halt
        ensures { IsUnder step self result }
    {
        match self {
            Halt::Refused(refusal) => match refusal.under(alloc, step) {
                Ok(refusal) => Halt::Refused(refusal),
                Err(_) => Halt::Memory,
            },
            Halt::Stopped => Halt::Stopped,
            Halt::Memory => Halt::Memory,
        }
    }
}

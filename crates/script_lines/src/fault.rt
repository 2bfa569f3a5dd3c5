ghost use Rattle.std.specs.Prelude.{◌≡◌};
ghost use Rattle.script_lines.specs.FaultNumbers.{number_of};
ghost use Rattle.script_lines.specs.declared.fault.ScriptRefusal.TheVariants.{Fault as refused, Memory as no_memory};

use std::alloc::{AllocError, AllocFailed};

/// Why a script is refused (docs/SCRIPTS.md, "Faults of general scripts").
#[derive(Clone, Copy)]
pub enum ScriptWhy {
    /// A line has no form of a header or an event.
    BadLine,
    /// A header stands after an event.
    Order,
    /// A header that has to be there is missing.
    Missing,
    /// A header stands twice, or a function has two rules.
    Twice,
    /// The text of an object has another form.
    BadObject,
    /// A number is out of its range, or no line before gives the node.
    BadNumber,
    /// A line is too long, or there are too many calls.
    TooMany,
}

impl ScriptWhy {
    /// The number under which it is reported.
    pub fn number(self) -> u8
        ensures { result ≡ number_of self }
    {
        match self {
            ScriptWhy::BadLine => 1,
            ScriptWhy::Order => 2,
            ScriptWhy::Missing => 3,
            ScriptWhy::Twice => 4,
            ScriptWhy::BadObject => 5,
            ScriptWhy::BadNumber => 8,
            ScriptWhy::TooMany => 10,
        }
    }
}

/// What is wrong with a script.
#[derive(Clone, Copy)]
pub struct ScriptFault {
    /// The offset of the first byte of the line, or the text's length for what is missing.
    pub at: u32,
    pub why: ScriptWhy,
}

/// Why there is nothing to give of a script.
#[derive(Clone, Copy)]
pub enum ScriptRefusal {
    Fault(ScriptFault),
    Memory,
}

impl From<ScriptFault> for ScriptRefusal {
    ghost from_gives = { λ fault e. e ≡ refused fault };

    fn from(fault: ScriptFault) -> Self {
        ScriptRefusal::Fault(fault)
    }
}

impl From<AllocError> for ScriptRefusal {
    ghost from_gives = { λ _ e. e ≡ no_memory };

    fn from(_: AllocError) -> Self {
        ScriptRefusal::Memory
    }
}

impl<T: Drop> From<AllocFailed<T>> for ScriptRefusal {
    ghost from_gives = { λ _ e. e ≡ no_memory };

    fn from(_: AllocFailed<T>) -> Self {
        ScriptRefusal::Memory
    }
}

/// The refusal of a line for this reason.
pub(crate) fn refusal(at: u32, why: ScriptWhy) -> ScriptRefusal
    ensures { result ≡ refused (record { at = at; why = why }) }
{
    ScriptRefusal::Fault(ScriptFault { at, why })
}

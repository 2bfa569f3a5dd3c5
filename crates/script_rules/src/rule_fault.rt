ghost use Rattle.script_rules.specs.Outcomes.{OnMemory};

use value_text::ValueFault;

/// Why the words of a rule mean none (docs/SCRIPTS.md, "Faults of scripts").
#[derive(Clone, Copy)]
pub enum RuleFault {
    /// No parameter that is not `out` has the name and a type that fits: fault 6.
    UnknownName,
    /// The text says no value of the type that is returned, or nothing is returned: fault 7.
    BadValue,
    Memory,
}

impl From<ValueFault> for RuleFault {
    ghost from_gives = { λ fault e. OnMemory fault e };

    fn from(fault: ValueFault) -> Self {
        match fault {
            ValueFault::Bad { .. } => RuleFault::BadValue,
            ValueFault::Memory => RuleFault::Memory,
        }
    }
}

//! What is wrong with a script that was read whole (docs/SCRIPTS.md, "Faults of scripts").

ghost use Rattle.std.specs.Prelude.{◌≡◌};
ghost use Rattle.script_load.specs.LineSteps.{at_line};
ghost use Rattle.script_load.specs.LoadSteps.{IsNoScript, IsNotJudged};
ghost use Rattle.script_load.specs.TextFaults.{form_fault, line_number, line_fault};
ghost use Rattle.script_load.specs.declared.faults.LineRefusal.TheVariants.{Memory as no_memory};

use schema_files::{LoadFault, Stage, TextFault, refused};
use script_lines::{ScriptFault, ScriptRefusal};
use script_rules::RuleFault;
use std::alloc::{AllocError, Global};

/// What is wrong with a line over the interfaces.
#[derive(Clone, Copy)]
pub enum LineWhy {
    /// A name that the interface does not have, or not of a type that fits.
    UnknownName,
    /// A value that does not read.
    BadValue,
}

impl LineWhy {
    /// The number under which it is reported.
    pub fn number(self) -> u8
        ensures { result ≡ line_number self }
    {
        match self {
            LineWhy::UnknownName => 6,
            LineWhy::BadValue => 7,
        }
    }
}

/// A fault of a line over the interfaces.
#[derive(Clone, Copy)]
pub struct LineFault {
    /// The offset of the line in the text.
    pub at: u32,
    pub why: LineWhy,
}

/// Why a script gives no session over its interfaces.
#[derive(Clone, Copy)]
pub enum LineRefusal {
    Fault(LineFault),
    Memory,
}

impl From<AllocError> for LineRefusal {
    ghost from_gives = { λ _ e. e ≡ no_memory };

    fn from(_: AllocError) -> Self {
        LineRefusal::Memory
    }
}

impl LineRefusal {
    /// What the fault of a rule's words is at a line.
    pub fn of_rule(at: u32, fault: RuleFault) -> LineRefusal
        ensures { result ≡ at_line at fault }
    {
        let why = match fault {
            RuleFault::UnknownName => LineWhy::UnknownName,
            RuleFault::BadValue => LineWhy::BadValue,
            RuleFault::Memory => return LineRefusal::Memory,
        };
        LineRefusal::Fault(LineFault { at, why })
    }
}

fn of_form(fault: ScriptFault) -> TextFault
    ensures { result ≡ form_fault fault }
{
    TextFault {
        stage: Stage::Script,
        number: fault.why.number(),
        offset: fault.at,
    }
}

fn of_line(fault: LineFault) -> TextFault
    ensures { result ≡ line_fault fault }
{
    TextFault {
        stage: Stage::Script,
        number: fault.why.number(),
        offset: fault.at,
    }
}

/// Refuses a text that is no script, if there is memory for the line.
pub fn no_script(alloc: Global, name: &str, refusal: ScriptRefusal) -> LoadFault
    ensures { IsNoScript name.now refusal result }
{
    match refusal {
        ScriptRefusal::Fault(fault) => refused(alloc, name.as_bytes(), of_form(fault)),
        ScriptRefusal::Memory => LoadFault::Memory,
    }
}

/// Refuses a script with a fault over its interfaces, if there is memory for the line.
pub fn not_judged(alloc: Global, name: &str, refusal: LineRefusal) -> LoadFault
    ensures { IsNotJudged name.now refusal result }
{
    match refusal {
        LineRefusal::Fault(fault) => refused(alloc, name.as_bytes(), of_line(fault)),
        LineRefusal::Memory => LoadFault::Memory,
    }
}

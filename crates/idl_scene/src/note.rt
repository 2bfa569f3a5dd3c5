//! A running least of faults.

ghost use Rattle.std.specs.Prelude.{◌≡◌, [], ◌∷◌};
ghost use Rattle.least_fault.specs.Least.{Notes};
ghost use Rattle.idl_scene.specs.Faults.{is_below, fault_if, number_of};

use crate::check_fault::{CheckWhy, Fault};

/// Whether a fault is in an earlier file, at a lesser place in one file, or of a lesser number at one place.
fn is_below(a: Fault, b: Fault) -> bool
    ensures { result ≡ is_below a b }
{
    if a.file != b.file {
        return a.file < b.file;
    }
    if a.at != b.at {
        return a.at < b.at;
    }
    a.why.number() < b.why.number()
}

/// Takes a fault into account.
fn note(least: &mut Option<Fault>, fault: Fault)
    ensures { Notes is_below least.old least.new (fault ∷ []) }
{
    match least {
        Some(found) if !is_below(fault, *found) => {}
        _ => *least = Some(fault),
    }
}

/// Takes a fault into account if something fails.
pub fn note_if(least: &mut Option<Fault>, fails: bool, file: u32, at: u32, why: CheckWhy)
    ensures { Notes is_below least.old least.new (fault_if fails file at why) }
{
    if fails {
        note(least, Fault { file, at, why });
    }
}

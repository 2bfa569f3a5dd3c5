//! How the parts of a report print.

ghost use Rattle.std.specs.Prelude.{◌≡◌, Some};
ghost use Rattle.script_session.specs.ReportWords.{why_text, refusal_text};

use crate::{Refusal, Why};
use std::fmt;

impl fmt::Display for Why {
    ghost output = { λ why. Some (why_text why) };

    fn fmt<W: fmt::Write>(&self, f: &mut fmt::Formatter<W>) -> fmt::Result {
        match self {
            Why::Live => f.write_str("live"),
        }
    }
}

impl fmt::Display for Refusal {
    ghost output = { λ refusal. Some (refusal_text refusal) };

    fn fmt<W: fmt::Write>(&self, f: &mut fmt::Formatter<W>) -> fmt::Result {
        match self {
            Refusal::Full => f.write_str("full"),
            Refusal::Closed { .. } => f.write_str("closed"),
        }
    }
}

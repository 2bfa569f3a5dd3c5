ghost use Rattle.std.specs.Prelude.{◌≡◌, IfOk};
ghost use Rattle.run_report.specs.ReportText.{report_text_of};

use crate::call_index::CallIndex;
use crate::lines::Lines;
use crate::room::room_of;
use script_session::{Loaded, Report};
use std::alloc::{AllocError, Global};

/// The text of a report (docs/SCRIPTS.md, "Reports").
pub fn report_text(alloc: Global, loaded: &Loaded, report: &Report) -> Result<Vec<u8>, AllocError>
    ensures { IfOk result (λ text. text.items ≡ report_text_of loaded.now report.now) }
{
    let (rows, links) = (report.calls.as_slice(), report.links.as_slice());
    let index = CallIndex::of(alloc, rows)?;
    let mut lines = Lines::with_capacity(alloc, room_of(rows, links))?;
    lines.put_calls(loaded.session(), rows)?;
    lines.put_sent(links)?;
    lines.put_got(&index, links)?;
    lines.put_done(rows)?;
    Ok(lines.into_text())
}

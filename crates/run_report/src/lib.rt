//! The text of a report (docs/SCRIPTS.md, "Reports"), line by line. What the lines say is in
//! `specs/ReportText.antt`, how calls came out in `specs/EndText.antt`.
#![tactic(auto)]

mod call_index;
mod calls;
mod ends;
mod lines;
mod links;
mod room;
mod text;

pub use text::report_text;

//! Sessions: `load` (`script_load`) reads a script with the interface files of both sides, `run_plan` (`run_engine`) runs it with all
//! its ends in memory, and `report_text` (`run_report`) prints the report. Nothing stands here but these names.
#![tactic(auto)]

pub use run_engine::run_plan;
pub use run_report::report_text;
pub use script_load::{LoadFault, Mode, load, one_answer};
pub use script_session::{
    CallId, CallSpec, Cut, End, Endpoint, Event, FuncRule, GotFate, GotRow, LinkLog, Loaded,
    ObjectName, PickNote, Refusal, Report, RouteStep, Row, SentRow, Session, Why,
};
pub use servant_core::Rule;

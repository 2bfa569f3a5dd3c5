ghost use Rattle.std.specs.Prelude.{◌≡◌, ◌++◌, not, OnOk, IfOk, count_by};
ghost use Rattle.std.specs.List.{flat_map};
ghost use Rattle.script_session.specs.Sessions.{client_funcs};
ghost use Rattle.run_report.specs.Views.{func_of};
ghost use Rattle.run_report.specs.ReportText.{func_at, name_of, pick_text, id_text, outcome_text, call_line, done_line};

use crate::lines::Lines;
use script_session::{CallId, PickNote, Row, Session};
use std::alloc::AllocError;
use tars_model::FuncDesc;

/// The functions of the caller's interface, and none where there is no such interface.
fn funcs_of(session: &Session) -> &[FuncDesc]
    ensures { result.now ≡ client_funcs session.now }
{
    match session
        .client
        .interfaces()
        .get(session.client_interface as usize)
    {
        Some(interface) => interface.funcs.as_slice(),
        None => &[],
    }
}

/// The function of a number in the caller's version.
fn func_at(session: &Session, func: u32) -> Option<&FuncDesc>
    ensures { func_of result ≡ func_at session.now func }
{
    funcs_of(session).get(func as usize)
}

impl Lines {
    /// Adds the lines of the calls.
    pub fn put_calls(&mut self, session: &Session, rows: &[Row]) -> Result<(), AllocError>
        ensures { OnOk result (self.new ≡ self.old ++ flat_map (call_line session.now) rows.now) }
    {
        for row in rows {
            self.put_call(session, row)?;
        }
        Ok(())
    }

    fn put_name(&mut self, func: Option<&FuncDesc>) -> Result<(), AllocError>
        ensures { OnOk result (self.new ≡ self.old ++ name_of (func_of func.entry)) }
    {
        match func {
            Some(func) => self.text.put(func.name.as_slice()),
            None => Ok(()),
        }
    }

    #[tactic(auto, unfolding(crate::specs::ReportText::call_line))]
    fn put_call(&mut self, session: &Session, row: &Row) -> Result<(), AllocError>
        ensures { OnOk result (self.new ≡ self.old ++ call_line session.now row.now) }
    {
        let (call, line) = (row.call, row.line);
        self.text.show(format_args!("call {call} line {line} "))?;
        self.put_name(func_at(session, row.func))?;
        self.put_outcome(session, row)
    }

    /// Adds what follows the function's name.
    #[tactic(auto, unfolding(crate::specs::ReportText::outcome_text))]
    fn put_outcome(&mut self, session: &Session, row: &Row) -> Result<(), AllocError>
        ensures { OnOk result (self.new ≡ self.old ++ outcome_text session.now row.now) }
    {
        self.put_pick(&row.pick)?;
        self.put_id(&row.id)?;
        self.text.word(" ")?;
        self.put_end(&session.client, func_at(session, row.func), &row.end)?;
        self.text.word("\n")
    }

    #[tactic(auto, unfolding(crate::specs::ReportText::pick_text))]
    fn put_pick(&mut self, pick: &Option<PickNote>) -> Result<(), AllocError>
        ensures { OnOk result (self.new ≡ self.old ++ pick_text pick.now) }
    {
        match pick {
            Some(PickNote { node, why }) => self.text.show(format_args!(" node {node} {why}")),
            None => Ok(()),
        }
    }

    #[tactic(auto, unfolding(crate::specs::ReportText::id_text))]
    fn put_id(&mut self, id: &Option<CallId>) -> Result<(), AllocError>
        ensures { OnOk result (self.new ≡ self.old ++ id_text id.now) }
    {
        match id {
            Some(CallId(id)) => self.text.show(format_args!(" id {id}")),
            None => Ok(()),
        }
    }

    /// Adds the last line.
    #[tactic(auto, unfolding(crate::specs::ReportText::done_line))]
    pub fn put_done(&mut self, rows: &[Row]) -> Result<(), AllocError>
        ensures { OnOk result (self.new ≡ self.old ++ done_line rows.now) }
    {
        let calls = rows.len();
        let two_way = rows.iter().filter(|row| row.two_way).count();
        let one_way = rows.iter().filter(|row| !row.two_way).count();
        self.text.show(format_args!("done calls {calls} two-way {two_way} one-way {one_way}\n"))
    }
}

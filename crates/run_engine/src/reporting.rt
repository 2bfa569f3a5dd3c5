//! The report that a run ends in.

ghost use Rattle.std.specs.Option.{option_to_list};
ghost use Rattle.tars_decode.specs.declared.refuse.Refuse.TheVariants.{Memory as no_memory};
ghost use Rattle.script_session.specs.declared.report.End.TheVariants.{Undecoded as UndecodedEnd};
ghost use Rattle.std.specs.Prelude.{◌≡◌, ◌≢◌, ◌≤◌, ◌<◌, ◌++◌, [], length, filter_map, map, option_map, List as Listed, Option as Maybe, IfOk, OnOk};
ghost use Rattle.std.specs.List.{AllByRecursion};
ghost use Rattle.script_session.specs.Sessions.{client_funcs};
ghost use Rattle.script_session.specs.declared.session.Session.{Session};
ghost use Rattle.run_course.specs.Courses as course;
ghost use Rattle.run_course.specs.Courses.{Course, Link, Noted};
ghost use Rattle.run_course.specs.LegalReports.{picked_of, reported_of};
ghost use Rattle.run_course.specs.Planned.{collected_all, fate_end, logs_from, reply_end, report_of, row_of as row_is};
ghost use Rattle.run_engine.specs.Claims.{FateFits, IsReply, MayFit, claims_of, fate_of, told};
ghost use Rattle.run_engine.specs.declared.call_note.CallNote.{CallNote as Note};
ghost use Rattle.run_engine.specs.Notes.{note_of, notes_of, fates_left};
ghost use Rattle.run_engine.specs.Tracks.{MAX_NODES, TrackLinks, Tracks};

use crate::call_note::{CallNote, Opening};
use crate::claims::Claims;
use crate::fate::Fate;
use crate::link_ends::LinkEnds;
use crate::plan::Plan;
use rpc_packet::Response;
use script_session::{CallId, End, LinkLog, Report, RouteStep, Row};
use session_service::Service;
use std::alloc::{AllocError, Global};
use std::vec::IntoIter;
use tars_decode::Refuse;
use tars_model::List;

/// A reply whose body does not read.
fn undecoded(link: u32, packet: u64, refuse: Refuse) -> Result<End, AllocError>
    ensures { IfOk result (λ end. (end ≡ UndecodedEnd link packet refuse) × (refuse ≢ no_memory)) }
{
    match refuse {
        Refuse::Memory => Err(AllocError),
        refuse => Ok(End::Undecoded {
            link,
            packet,
            refuse,
        }),
    }
}

/// What a reply says.
fn reply_end_of(
    alloc: Global,
    service: &Service,
    func: u32,
    link: u32,
    packet: u64,
    response: &Response,
) -> Result<End, AllocError>
    requires func { func < length (client_funcs service.now) }
    requires fits { IsReply response.now }
    ensures { IfOk result (λ end. end ≡ reply_end service.now func link packet response.now) }
{
    if response.ret != 0 {
        let code = response.ret;
        return Ok(End::Code { link, packet, code });
    }
    match service.reply_values(alloc, func, response.body.as_slice()) {
        Ok(values) => Ok(End::Value {
            link,
            packet,
            values,
        }),
        Err(refuse) => undecoded(link, packet, refuse),
    }
}

/// How a call that was opened came out.
fn end_of(
    alloc: Global,
    service: &Service,
    func: u32,
    fate: Option<Fate>,
) -> Result<End, AllocError>
    requires func { func < length (client_funcs service.now) }
    requires fits { MayFit fate }
    ensures { IfOk result (λ end. end ≡ fate_end service.now func (option_map told fate)) }
{
    match fate {
        Some(
            Fate::Replied {
                node,
                packet,
                response,
            },
        ) => reply_end_of(alloc, service, func, node, packet, &response),
        Some(Fate::Closed) => Ok(End::Closed),
        None => Ok(End::Closed),
    }
}

/// The row of a call. The fate of one that was opened is the next.
fn row_of(
    alloc: Global,
    service: &Service,
    note: CallNote,
    fates: &mut IntoIter<Option<Fate>>,
) -> Result<Row, AllocError>
    requires func { note.func < length (client_funcs service.now) }
    requires fits { AllByRecursion MayFit fates.old.rest.items }
    requires fates { (call : Noted) × (others : Listed (Maybe course.Fate)) × (note ≡ note_of call)
        × (map (option_map told) fates.old.rest.items ≡ fates_left call.stage others) }
    ensures row { (call : Noted) (others : Listed (Maybe course.Fate)) → note ≡ note_of call
        → map (option_map told) fates.old.rest.items ≡ fates_left call.stage others → IfOk result (λ row. row ≡ row_is service.now call) }
    ensures rest { (call : Noted) (others : Listed (Maybe course.Fate)) → note ≡ note_of call
        → map (option_map told) fates.old.rest.items ≡ fates_left call.stage others → OnOk result (map (option_map told) fates.new.rest.items ≡ others) }
    ensures fits { OnOk result (AllByRecursion MayFit fates.new.rest.items) }
{
    let (id, end) = match note.opening {
        Opening::Refused(why) => (None, End::Refused(why)),
        Opening::Opened(id) => {
            let fate = fates.next().flatten();
            (Some(id), end_of(alloc, service, note.func, fate)?)
        }
    };
    Ok(Row {
        call: note.call,
        line: note.line,
        func: note.func,
        two_way: note.two_way,
        pick: note.pick,
        id,
        end,
    })
}

/// The rows of calls, in order.
fn rows_of(
    alloc: Global,
    service: &Service,
    notes: Vec<CallNote>,
    fates: Vec<Option<Fate>>,
) -> Result<Vec<Row>, AllocError>
    requires funcs { AllByRecursion (λ (note : Note). note.func < length (client_funcs service.now)) notes.items }
    requires fits { AllByRecursion MayFit fates.items }
    requires fates { (calls : Listed Noted) × (notes.items ≡ notes_of calls) × (map (option_map told) fates.items ≡ map fate_of (claims_of calls)) }
    ensures { (calls : Listed Noted) → notes.items ≡ notes_of calls → map (option_map told) fates.items ≡ map fate_of (claims_of calls)
        → IfOk result (λ rows. rows.items ≡ map (row_is service.now) calls) }
{
    let mut rows = Vec::new(alloc);
    let mut fates = fates.into_iter();
    for note in notes {
        rows.push(row_of(alloc, service, note, &mut fates)?)?;
    }
    Ok(rows)
}

/// The pick of a call, if there was one.
fn picked_step(row: &Row) -> Option<RouteStep>
    ensures { result ≡ picked_of row.now }
{
    let note = row.pick?;
    Some(RouteStep::Picked {
        call: row.call,
        node: note.node,
        why: note.why,
        moment: 0,
        key: 0,
    })
}

/// What came of a call's pick: each reply is a success of the node.
fn reported_step(row: &Row) -> Option<RouteStep>
    ensures { result ≡ reported_of row.now }
{
    match &row.end {
        End::Value { link, .. } | End::Code { link, .. } | End::Undecoded { link, .. } => Some(
            RouteStep::Reported {
                call: row.call,
                node: *link,
                stamp: 0,
                ok: true,
                moment: 0,
            },
        ),
        End::Closed | End::Refused(_) => None,
    }
}

fn add_step(steps: &mut Vec<RouteStep>, step: Option<RouteStep>) -> Result<(), AllocError>
    ensures { OnOk result (steps.new.items ≡ steps.old.items ++ option_to_list step) }
{
    if let Some(step) = step {
        steps.push(step)?;
    }
    Ok(())
}

fn picked_steps(alloc: Global, rows: &[Row]) -> Result<Vec<RouteStep>, AllocError>
    ensures { IfOk result (λ steps. steps.items ≡ filter_map picked_of rows.now) }
{
    let mut steps = Vec::new(alloc);
    for row in rows {
        add_step(&mut steps, picked_step(row))?;
    }
    Ok(steps)
}

fn reported_steps(alloc: Global, rows: &[Row]) -> Result<Vec<RouteStep>, AllocError>
    ensures { IfOk result (λ steps. steps.items ≡ filter_map reported_of rows.now) }
{
    let mut steps = Vec::new(alloc);
    for row in rows {
        add_step(&mut steps, reported_step(row))?;
    }
    Ok(steps)
}

/// The steps of the router: the picks, then what came of them.
fn routes_of(alloc: Global, rows: &[Row]) -> Result<List<RouteStep>, AllocError>
    ensures { IfOk result (λ steps. steps ≡ filter_map picked_of rows.now ++ filter_map reported_of rows.now) }
{
    let mut steps = picked_steps(alloc, rows)?;
    let mut reported = reported_steps(alloc, rows)?;
    steps.append(&mut reported)?;
    Ok(List::from_vec(steps))
}

/// The logs of links, by node from 1.
fn logs_of(alloc: Global, links: Vec<LinkEnds>) -> Result<List<LinkLog>, AllocError>
    requires few { length links.items ≤ MAX_NODES }
    ensures { (s : Session) (cs : Listed Link) → TrackLinks s links.items cs → IfOk result (λ logs. logs ≡ logs_from 1 cs) }
{
    let mut logs = List::new(alloc);
    let mut node = 1;
    for ends in links {
        logs.push(ends.into_log(alloc, node)?)?;
        node += 1;
    }
    Ok(logs)
}

impl<'a, T: Claims + Drop> Plan<'a, T> {
    /// The report of what has happened.
    pub fn into_report(self, alloc: Global) -> Result<Report, AllocError>
        requires tracks { (c : Course) × Tracks T.IsOf self c }
        ensures { (c : Course) → Tracks T.IsOf self.entry c → IfOk result (λ report. report ≡ report_of self.entry.service (collected_all c)) }
    {
        let Plan {
            service,
            notes,
            table,
            links,
            ..
        } = self;
        let fates = table.into_fates(alloc)?;
        let rows = rows_of(alloc, &service, notes, fates)?;
        let routes = routes_of(alloc, &rows)?;
        let links = logs_of(alloc, links)?;
        Ok(Report {
            calls: List::from_vec(rows),
            links,
            routes,
        })
    }
}

//! A session is run event by event.

ghost use Rattle.std.specs.Prelude.{◌≡◌, ◌+◌, ◌<◌, ◌≤◌, suc, length, fold, [], IfOk, MatchOption, OnOk};
ghost use Rattle.std.specs.List.{AllByRecursion};
ghost use Rattle.script_session.specs.Judged.{IDS, IsCall, IsEvent};
ghost use Rattle.script_session.specs.Sessions.{client_funcs, node_of};
ghost use Rattle.script_session.specs.declared.session.Event.TheVariants.{Call, Serve, Work, Deliver, Close};
ghost use Rattle.run_course.specs.Courses.{Course, start, step as course_step, not_sent, is_sent, refused_call, at_node, sends};
ghost use Rattle.run_engine.specs.Tracks.{Tracks, IsNode, NoNode};

use crate::call_note::CallNote;
use crate::claims::Claims;
use crate::link_ends::LinkEnds;
use crate::one_node::{NODE, PICKED};
use script_session::{CallSpec, Event, PickNote, Refusal, SentRow};
use session_service::{Service, node_of as one_node_of};
use std::alloc::{AllocError, Global};

/// A run of a session so far.
#[derive(Drop)]
pub(crate) struct Plan<'a, T> {
    pub service: Service<'a>,
    /// Milliseconds since the run began.
    pub moment: u32,
    pub closed: bool,
    /// The scripted calls so far, in order.
    pub notes: Vec<CallNote>,
    /// Those that were opened.
    pub table: T,
    /// By node, from 1.
    pub links: Vec<LinkEnds>,
}

impl<'a, T: Claims + Drop> Plan<'a, T> {
    /// Nothing has happened yet.
    pub fn new(alloc: Global, service: Service<'a>, table: T) -> Result<Plan<'a, T>, AllocError>
        requires table { T.IsOf table [] }
        ensures tracks { IfOk result (λ plan. Tracks T.IsOf plan start) }
        ensures service { IfOk result (λ plan. plan.service ≡ service.entry) }
    {
        let mut links = Vec::new(alloc);
        links.push(LinkEnds::new(alloc, &service)?)?;
        Ok(Plan {
            service,
            moment: 0,
            closed: false,
            notes: Vec::new(alloc),
            table,
            links,
        })
    }

    /// Where the link to a node stands.
    fn link_index(&self, node: u32) -> Option<usize>
        ensures { MatchOption result (NoNode self.now.links.items node) (λ k. IsNode self.now.links.items node k) }
    {
        let index = (node as usize).checked_sub(1)?;
        if index < self.links.len() {
            Some(index)
        } else {
            None
        }
    }

    /// A call is not sent.
    fn refuse(
        &mut self,
        spec: &CallSpec,
        pick: Option<PickNote>,
        why: Refusal,
    ) -> Result<(), AllocError>
        requires func { spec.now.func < length (client_funcs self.old.service) }
        ensures tracks { (c : Course) → Tracks T.IsOf self.old c → OnOk result (Tracks T.IsOf self.new (not_sent c (refused_call spec.now pick why))) }
        ensures service { self.new.service ≡ self.old.service }
        ensures count { OnOk result (length self.new.notes.items ≤ suc (length self.old.notes.items)) }
    {
        self.notes.push(CallNote::refused(spec, pick, why))?;
        Ok(())
    }

    /// A frame is written to a node.
    fn send(&mut self, node: u32, row: SentRow) -> Result<(), AllocError>
        ensures tracks { (c : Course) → Tracks T.IsOf self.old c → OnOk result (Tracks T.IsOf self.new (record c { links = at_node node (sends row) c.links })) }
        ensures service { self.new.service ≡ self.old.service }
        ensures count { OnOk result (length self.new.notes.items ≤ length self.old.notes.items) }
    {
        let Some(index) = self.link_index(node) else {
            return Ok(());
        };
        self.links[index].send(row)
    }

    /// A call is opened under the next id, and its request is sent to the one node.
    fn open_call(&mut self, alloc: Global, spec: &CallSpec) -> Result<(), AllocError>
        requires call { IsCall self.old.service spec.now }
        requires room { length self.old.notes.items + 1 < IDS }
        requires tracks { (c : Course) × Tracks T.IsOf self.old c }
        ensures tracks { (c : Course) → Tracks T.IsOf self.old c → OnOk result (Tracks T.IsOf self.new (is_sent self.old.service c spec.now)) }
        ensures service { self.new.service ≡ self.old.service }
        ensures count { OnOk result (length self.new.notes.items ≤ suc (length self.old.notes.items)) }
    {
        let deadline = self.moment + one_node_of(self.service.session()).timeout;
        let id = self.table.open_call(spec.line, NODE, deadline)?;
        let frame = self.service.request_frame(alloc, spec, id)?;
        self.notes.push(CallNote::opened(spec, id))?;
        let call = spec.call;
        self.send(NODE, SentRow { call, frame })
    }

    /// A call is opened, or refused where too many are in flight or the session was closed.
    fn call(&mut self, alloc: Global, spec: &CallSpec) -> Result<(), AllocError>
        requires call { IsCall self.old.service spec.now }
        requires room { length self.old.notes.items + 1 < IDS }
        requires tracks { (c : Course) × Tracks T.IsOf self.old c }
        ensures tracks { (c : Course) → Tracks T.IsOf self.old c → OnOk result (Tracks T.IsOf self.new (course_step self.old.service c (Call spec.now))) }
        ensures service { self.new.service ≡ self.old.service }
        ensures count { OnOk result (length self.new.notes.items ≤ suc (length self.old.notes.items)) }
    {
        if self.table.is_full(spec.line) {
            return self.refuse(spec, None, Refusal::Full);
        }
        if self.closed {
            return self.refuse(spec, Some(PICKED), Refusal::Closed { word: 0 });
        }
        self.open_call(alloc, spec)
    }

    /// A node reads.
    fn serve(&mut self, alloc: Global, node: u32, bytes: Option<u32>) -> Result<(), AllocError>
        ensures tracks { (c : Course) → Tracks T.IsOf self.old c → OnOk result (Tracks T.IsOf self.new (course_step self.old.service c (Serve node bytes))) }
        ensures service { self.new.service ≡ self.old.service }
        ensures count { OnOk result (length self.new.notes.items ≤ length self.old.notes.items) }
    {
        let Some(index) = self.link_index(node) else {
            return Ok(());
        };
        self.links[index].serve(alloc, &self.service, bytes, self.moment)
    }

    /// A node answers a request.
    fn work(&mut self, alloc: Global, node: u32) -> Result<(), AllocError>
        requires tracks { (c : Course) × Tracks T.IsOf self.old c }
        ensures tracks { (c : Course) → Tracks T.IsOf self.old c → OnOk result (Tracks T.IsOf self.new (course_step self.old.service c (Work node))) }
        ensures service { self.new.service ≡ self.old.service }
        ensures count { OnOk result (length self.new.notes.items ≤ length self.old.notes.items) }
    {
        let Some(index) = self.link_index(node) else {
            return Ok(());
        };
        self.links[index].work(alloc, &self.service, self.moment)
    }

    /// The caller reads from a node.
    fn deliver(&mut self, alloc: Global, node: u32, bytes: Option<u32>) -> Result<(), AllocError>
        ensures tracks { (c : Course) → Tracks T.IsOf self.old c → OnOk result (Tracks T.IsOf self.new (course_step self.old.service c (Deliver node bytes))) }
        ensures service { self.new.service ≡ self.old.service }
        ensures count { OnOk result (length self.new.notes.items ≤ length self.old.notes.items) }
    {
        let Some(index) = self.link_index(node) else {
            return Ok(());
        };
        self.links[index].deliver(alloc, &self.service, &mut self.table, node, bytes)
    }

    /// The session is closed: each open call ends.
    pub fn close(&mut self)
        ensures tracks { (c : Course) → Tracks T.IsOf self.old c → Tracks T.IsOf self.new (course_step self.old.service c Close) }
        ensures service { self.new.service ≡ self.old.service }
        ensures count { length self.new.notes.items ≤ length self.old.notes.items }
    {
        self.table.close();
        self.closed = true;
    }

    /// The next event happens.
    pub fn step(&mut self, alloc: Global, event: &Event) -> Result<(), AllocError>
        requires event { IsEvent self.old.service event.now }
        requires room { length self.old.notes.items + 1 < IDS }
        requires tracks { (c : Course) × Tracks T.IsOf self.old c }
        ensures tracks { (c : Course) → Tracks T.IsOf self.old c → OnOk result (Tracks T.IsOf self.new (course_step self.old.service c event.now)) }
        ensures service { self.new.service ≡ self.old.service }
        ensures count { OnOk result (length self.new.notes.items ≤ suc (length self.old.notes.items)) }
    {
        match event {
            Event::Call(spec) => self.call(alloc, spec),
            Event::Serve { node, bytes } => self.serve(alloc, *node, *bytes),
            Event::Work { node } => self.work(alloc, *node),
            Event::Deliver { node, bytes } => self.deliver(alloc, *node, *bytes),
            Event::Close => {
                self.close();
                Ok(())
            }
        }
    }

    /// Events happen, one after another.
    pub fn run(&mut self, alloc: Global, events: &[Event]) -> Result<(), AllocError>
        requires events { AllByRecursion (IsEvent self.old.service) events.now }
        requires room { length self.old.notes.items + length events.now < IDS }
        requires tracks { (c : Course) × Tracks T.IsOf self.old c }
        ensures tracks { (c : Course) → Tracks T.IsOf self.old c → OnOk result (Tracks T.IsOf self.new (fold (course_step self.old.service) c events.now)) }
        ensures service { self.new.service ≡ self.old.service }
    {
        for event in events {
            self.step(alloc, event)?;
        }
        Ok(())
    }
}

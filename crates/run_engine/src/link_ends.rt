ghost use Rattle.std.specs.Prelude.{◌≡◌, List as Listed, IfOk, OnOk};
ghost use Rattle.script_session.specs.declared.session.Session.{Session};
ghost use Rattle.run_course.specs.Courses.{Link, Noted, delivers, sends, serves, unused, worked};
ghost use Rattle.run_course.specs.Planned.{link_log as log_of};
ghost use Rattle.run_engine.specs.Claims.{claims_of};
ghost use Rattle.run_engine.specs.Tracks.{TracksLink, TracksEnds};

use crate::caller::take_all_in;
use crate::channel::Channel;
use crate::claims::Claims;
use crate::node::NodeEnd;
use crate::serving::{put, serve_all};
use script_session::{GotRow, LinkLog, SentRow};
use session_service::Service;
use std::alloc::{AllocError, Global};
use tars_model::{Bytes8, List};

/// The link between the caller and a node, with what each end keeps.
#[derive(Drop)]
pub(crate) struct LinkEnds {
    pub to_node: Channel,
    pub to_caller: Channel,
    pub node: NodeEnd,
    pub sent: Vec<SentRow>,
    pub got: Vec<GotRow>,
}

impl LinkEnds {
    /// Nothing has passed.
    pub fn new(alloc: Global, service: &Service) -> Result<LinkEnds, AllocError>
        ensures { IfOk result (λ ends. TracksLink service.now ends unused) }
    {
        Ok(LinkEnds {
            to_node: Channel::new(alloc)?,
            to_caller: Channel::new(alloc)?,
            node: NodeEnd::new(alloc, service)?,
            sent: Vec::new(alloc),
            got: Vec::new(alloc),
        })
    }

    /// The caller writes a frame.
    pub fn send(&mut self, row: SentRow) -> Result<(), AllocError>
        ensures { (s : Session) (link : Link) → TracksLink s self.old link → OnOk result (TracksLink s self.new (sends row link)) }
    {
        self.to_node.write(row.frame.as_slice())?;
        self.sent.push(row)?;
        Ok(())
    }

    /// The node reads at the moment `now`, in milliseconds, and each request that gets whole is offered to its queue.
    pub fn serve(
        &mut self,
        alloc: Global,
        service: &Service,
        bytes: Option<u32>,
        now: u32,
    ) -> Result<(), AllocError>
        ensures { (link : Link) → TracksLink service.now self.old link → OnOk result (TracksLink service.now self.new (serves service.now now bytes link)) }
    {
        let news = self.to_node.read(alloc, bytes)?;
        serve_all(
            alloc,
            service,
            &mut self.node,
            &mut self.to_caller,
            &news,
            now,
        )
    }

    /// The node takes the first request that waits, if there is one, at the moment `now`, in milliseconds.
    pub fn work(&mut self, alloc: Global, service: &Service, now: u32) -> Result<(), AllocError>
        requires tracks { (link : Link) × TracksLink service.now self.old link }
        ensures { (link : Link) → TracksLink service.now self.old link → OnOk result (TracksLink service.now self.new (worked service.now now link)) }
    {
        let frame = self.node.work(alloc, service, now)?;
        put(&mut self.to_caller, frame)
    }

    /// The caller reads, and each packet that gets whole settles its call or is late.
    pub fn deliver<T: Claims>(
        &mut self,
        alloc: Global,
        service: &Service,
        table: &mut T,
        node: u32,
        bytes: Option<u32>,
    ) -> Result<(), AllocError>
        ensures { (calls : Listed Noted) (link : Link) → T.IsOf table.old (claims_of calls) → TracksLink service.now self.old link
            → OnOk result (TracksEnds T.IsOf service.now table.new self.new (delivers service.now node bytes calls link)) }
    {
        let news = self.to_caller.read(alloc, bytes)?;
        take_all_in(alloc, service.packets(), table, node, &mut self.got, news)
    }

    /// What has passed, as the log of a node.
    pub fn into_log(self, alloc: Global, node: u32) -> Result<LinkLog, AllocError>
        ensures { (s : Session) (link : Link) → TracksLink s self link → IfOk result (λ log. log ≡ log_of node link) }
    {
        let rest = Bytes8::from_slice(alloc, self.to_caller.rest())?;
        let LinkEnds { sent, got, .. } = self;
        Ok(LinkLog {
            node,
            sent: List::from_vec(sent),
            torn: Bytes8::from_vec(Vec::new(alloc)),
            got: List::from_vec(got),
            rest,
            cut: None,
        })
    }
}

//! A node: its queue, and its servant.

ghost use Rattle.std.specs.Prelude.{◌≡◌, option_map, IfOk, IfSome, OnOk};
ghost use Rattle.rpc_packet.specs.Outcomes.{IsSendable};
ghost use Rattle.rpc_packet.specs.Packets.{response_frame};
ghost use Rattle.servant_core.specs.Answers.{answered};
ghost use Rattle.script_session.specs.Sessions.{replies};
ghost use Rattle.run_course.specs.Nodes.{Node, answer_of, fresh, offers, works};
ghost use Rattle.run_engine.specs.Tracks.{IsServantOf, IsWritable, MayBeAnswered, TracksNode, TracksStep};

use adapter_queue::{OneQueue, Overload, Taken};
use rpc_packet::{Packets, Request, Response, WriteRefusal};
use servant_core::{TableServant, answer, overloaded, timed_out};
use session_service::{Service, servant_of};
use std::alloc::{AllocError, Global};
use tars_model::Bytes8;

/// What a node keeps: the requests that wait, and what replies to them.
#[derive(Drop)]
pub(crate) struct NodeEnd {
    pub queue: OneQueue<Request>,
    pub servant: TableServant,
}

/// The frame of a response, if there is one.
fn frame_of(
    alloc: Global,
    packets: &Packets,
    response: Option<Response>,
) -> Result<Option<Bytes8>, AllocError>
    requires { IfSome response IsWritable }
    ensures { IfOk result (λ frame. frame ≡ option_map response_frame response) }
{
    let Some(response) = response else {
        return Ok(None);
    };
    match packets.write_response(alloc, response) {
        Ok(frame) => Ok(Some(frame)),
        Err(WriteRefusal::Memory) => Err(AllocError),
        // What is answered is within the limit.
        Err(WriteRefusal::TooLong { length: _ }) => unreachable!(),
    }
}

impl NodeEnd {
    /// Nothing was offered yet.
    pub fn new(alloc: Global, service: &Service) -> Result<NodeEnd, AllocError>
        ensures { IfOk result (λ end. TracksNode service.now end fresh) }
    {
        let session = service.session();
        let queue = OneQueue::new(alloc, session.queue, session.queue_timeout)?;
        let servant = servant_of(alloc, session)?;
        servant.suits();
        Ok(NodeEnd { queue, servant })
    }

    /// A request is offered to the queue at the moment `now`, in milliseconds. What is to be written, if anything.
    pub fn offer(
        &mut self,
        alloc: Global,
        service: &Service,
        request: Request,
        now: u32,
    ) -> Result<Option<Bytes8>, AllocError>
        requires sendable { IsSendable request }
        ensures { (node : Node) → TracksNode service.now self.old node
            → IfOk result (λ frame. TracksStep service.now self.new node (offers service.now now node request) frame) }
    {
        match self.queue.offer(request, now) {
            Ok(()) => Ok(None),
            Err(Overload(request)) => {
                frame_of(alloc, service.packets(), overloaded(alloc, &request))
            }
        }
    }

    /// What the servant answers to a request.
    fn answer(
        &mut self,
        alloc: Global,
        service: &Service,
        request: &Request,
        now: u32,
    ) -> Result<Option<Response>, AllocError>
        requires servant { IsServantOf service.now self.old.servant }
        requires sendable { IsSendable request.now }
        ensures answered { IfOk result (λ response. response ≡ answered service.now.server service.now.server_interface service.now.object.id (replies service.now) request.now now) }
        ensures servant { OnOk result (IsServantOf service.now self.new.servant) }
        ensures queue { self.new.queue ≡ self.old.queue }
    {
        let session = service.session();
        answer(
            alloc,
            service.packets(),
            &session.server,
            session.server_interface,
            session.object.id.as_slice(),
            &mut self.servant,
            request,
            now,
        )
    }

    /// What is answered to a request that was taken: by the servant, but where it waited for too long.
    fn answer_taken(
        &mut self,
        alloc: Global,
        service: &Service,
        taken: Taken<Request>,
        now: u32,
    ) -> Result<Option<Response>, AllocError>
        requires servant { IsServantOf service.now self.old.servant }
        requires sendable { MayBeAnswered taken }
        ensures answered { IfOk result (λ response. response ≡ answer_of service.now now taken) }
        ensures servant { OnOk result (IsServantOf service.now self.new.servant) }
        ensures queue { self.new.queue ≡ self.old.queue }
    {
        match taken {
            Taken::Work(request) => self.answer(alloc, service, &request, now),
            Taken::Stale(request) => Ok(timed_out(alloc, &request)),
        }
    }

    /// The first request that waits is taken at the moment `now`, in milliseconds. What is to be written, if anything.
    pub fn work(
        &mut self,
        alloc: Global,
        service: &Service,
        now: u32,
    ) -> Result<Option<Bytes8>, AllocError>
        requires tracks { (node : Node) × TracksNode service.now self.old node }
        ensures { (node : Node) → TracksNode service.now self.old node
            → IfOk result (λ frame. TracksStep service.now self.new node (works service.now now node) frame) }
    {
        let Some(taken) = self.queue.take(now) else {
            return Ok(None);
        };
        let response = self.answer_taken(alloc, service, taken, now)?;
        frame_of(alloc, service.packets(), response)
    }
}

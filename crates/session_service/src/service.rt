ghost use Rattle.std.specs.Prelude.{◌≡◌, ◌<◌, ◌≤◌, ◌^◌, true, length, All, IfOk};
ghost use Rattle.tars_model.specs.Members.{HaveRisingTags, MAX_PARAMS};
ghost use Rattle.tars_model.specs.Values.{fit_members};
ghost use Rattle.tars_model.specs.declared.func_desc.FuncDesc.{FuncDesc as AFunc};
ghost use Rattle.tars_codec.specs.Written.{written};
ghost use Rattle.tars_decode.specs.Decoding.{MembersFit};
ghost use Rattle.rpc_packet.specs.Packets.{request_frame as frame_of_request};
ghost use Rattle.run_course.specs.Planned.{reply_values as values_of_reply};
ghost use Rattle.script_session.specs.Sessions.{client_funcs, func_of as func_is, node_of as node_is, request_of};
ghost use Rattle.script_session.specs.Judged.{IDS, IsCall, IsJudged};
ghost use Rattle.session_service.specs.Made.{members_of};
ghost use Rattle.session_service.specs.Outcomes.{IsRead};

use crate::func_members::{FuncMembers, members_of_all};
use bytes::BytesMut;
use rpc_packet::{Packets, Request, WriteRefusal};
use script_session::{CallSpec, Endpoint, Loaded, Session};
use std::alloc::{AllocError, Global};
use std::marker::Model;
use tars_codec::{decode, encode};
use tars_decode::Refuse;
use tars_model::{Bytes8, FuncDesc, List, Member, Schema, Value};

/// A session with all that is made once for its calls: the members of packets, and of each function's arguments and reply in the
/// caller's version.
#[derive(Drop)]
pub struct Service<'a> {
    loaded: &'a Loaded,
    packets: Packets,
    /// By the functions' numbers.
    funcs: Vec<FuncMembers>,
}

impl<'a> Model for Service<'a> {
    ghost use Rattle.std.specs.Coded.{codes};
    ghost use Rattle.std.specs.Prelude.{◌≡◌};
    ghost use Rattle.script_session.specs.Sessions.{client_funcs};
    ghost use Rattle.script_session.specs.declared.session.Session.{Session};
    ghost use Rattle.session_service.specs.Made.{all_members};
    ghost use Rattle.tars_model.specs.contracts.ty.Ty as ty;
    ghost use Rattle.tars_model.specs.contracts.value.Value as value;

    ghost Value = { Session };

    ghost coded = { Prim.hlevel (codes, ty.the_row.coded, value.the_row.coded) };

    ghost view = { λ s. s.loaded.now };

    ghost invariant = { λ s. s.funcs.items ≡ all_members (client_funcs s.loaded.now) };
}

/// The functions of the interface, in the caller's version.
fn funcs_of(session: &Session) -> &[FuncDesc]
    requires { IsJudged session.now }
    ensures funcs { result.now ≡ client_funcs session.now }
    ensures params { All (λ (func : AFunc). length func.params ≤ MAX_PARAMS) result.now }
{
    // By its rules a function of a schema has few parameters.
    let _order = session.client.order();
    session.client.interfaces()[session.client_interface as usize]
        .funcs
        .as_slice()
}

/// The one node of the object.
pub fn node_of(session: &Session) -> &Endpoint
    requires { 1 ≤ length session.now.object.nodes }
    ensures { result.now ≡ node_is session.now }
{
    &session.object.nodes.as_slice()[0]
}

/// The bytes that spell the values under the members.
fn write_values(
    alloc: Global,
    schema: &Schema,
    members: &[Member],
    values: &[Value],
) -> Result<Bytes8, AllocError>
    requires rising { HaveRisingTags members.now }
    requires fits { fit_members schema.now members.now values.now ≡ true }
    ensures { IfOk result (λ body. body ≡ written schema.now members.now values.now) }
{
    let mut body = BytesMut::new(alloc);
    encode(schema, members, values, &mut body)?;
    Ok(Bytes8::from_vec(body.into_vec()?))
}

impl<'a> Service<'a> {
    pub fn new(alloc: Global, loaded: &'a Loaded) -> Result<Service<'a>, AllocError>
        ensures { IfOk result (λ service. service ≡ loaded.now) }
    {
        let packets = Packets::new(alloc)?;
        let funcs = members_of_all(alloc, funcs_of(loaded.session()))?;
        Ok(Service {
            loaded,
            packets,
            funcs,
        })
    }

    pub fn session(&self) -> &Session
        ensures value { result.now ≡ self.now }
        ensures judged { IsJudged self.now }
    {
        self.loaded.session()
    }

    pub fn packets(&self) -> &Packets {
        &self.packets
    }

    /// The function of a number.
    fn func(&self, func: u32) -> &FuncDesc
        requires { func < length (client_funcs self.now) }
        ensures { result.now ≡ func_is self.now func }
    {
        &funcs_of(self.session())[func as usize]
    }

    /// The members of a function's arguments and of its reply.
    fn members(&self, func: u32) -> &FuncMembers
        requires { func < length (client_funcs self.now) }
        ensures members { result.now ≡ members_of (func_is self.now func) }
        ensures arguments { MembersFit self.now.client result.now.arguments }
        ensures reply { MembersFit self.now.client result.now.reply }
    {
        // Parameters have types over what the schema declares.
        let _order = self.session().client.order();
        &self.funcs[func as usize]
    }

    /// The request of a call under an id.
    fn request(&self, alloc: Global, spec: &CallSpec, id: u32) -> Result<Request, AllocError>
        requires call { IsCall self.now spec.now }
        requires id { id < IDS }
        ensures { IfOk result (λ request. request ≡ request_of self.now spec.now id) }
    {
        let session = self.session();
        let members = self.members(spec.func);
        let args = spec.args.as_slice();
        let body = write_values(alloc, &session.client, members.arguments.as_slice(), args)?;
        Ok(Request {
            version: 1,
            kind: 0,
            message: 0,
            id: id as i32,
            servant: Bytes8::from_slice(alloc, session.object.id.as_slice())?,
            func: Bytes8::from_slice(alloc, self.func(spec.func).name.as_slice())?,
            body,
            timeout: node_of(session).timeout as i32,
            context: List::new(alloc),
            status: List::new(alloc),
        })
    }

    /// The frame of a call's request under an id.
    pub fn request_frame(
        &self,
        alloc: Global,
        spec: &CallSpec,
        id: u32,
    ) -> Result<Bytes8, AllocError>
        requires call { IsCall self.now spec.now }
        requires id { id < IDS }
        ensures { IfOk result (λ frame. frame ≡ frame_of_request (request_of self.now spec.now id)) }
    {
        let request = self.request(alloc, spec, id)?;
        match self.packets.write_request(alloc, request) {
            Ok(frame) => Ok(frame),
            Err(WriteRefusal::Memory) => Err(AllocError),
            // The requests of calls are within the limit.
            Err(WriteRefusal::TooLong { length: _ }) => unreachable!(),
        }
    }

    /// The values that the body of a reply says for a function, or why it says none.
    pub fn reply_values(&self, alloc: Global, func: u32, body: &[u8]) -> Result<List<Value>, Refuse>
        requires func { func < length (client_funcs self.now) }
        requires short { length body.now < 2 ^ 32 }
        ensures { IsRead result (values_of_reply self.now func body.now) }
    {
        let members = self.members(func).reply.as_slice();
        decode(alloc, &self.session().client, members, body)
    }
}

//! What is answered to a request.

ghost use Rattle.std.specs.Prelude.{◌≡◌, ◌<◌, ◌≤◌, ◌^◌, true, [], length, position, IfOk, IfSome, OnOk};
ghost use Rattle.std.specs.Str.{bytes_eq};
ghost use Rattle.tars_decode.specs.Decoding.{MembersFit};
ghost use Rattle.tars_model.specs.Members.{MAX_PARAMS, arguments_of};
ghost use Rattle.tars_model.specs.Values.{fit_members};
ghost use Rattle.tars_model.specs.declared.func_desc.FuncDesc.{FuncDesc as AFunc};
ghost use Rattle.rpc_packet.specs.Bodies.{values_of};
ghost use Rattle.servant_core.specs.Answers.{PING, is_one, first_code, answered, handled_by};
ghost use Rattle.servant_core.specs.AnswerSteps.{Asks, early_cases};
ghost use Rattle.servant_core.specs.Functions.{functions_of};
ghost use Rattle.servant_core.specs.Servants.{Always, IsAfter, IsSuited};

use crate::Servant;
use crate::funcs::{func_at, funcs_of};
use crate::responding::{SUCCESS, code_alone, is_one_way, replied};
use rpc_packet::{Packets, Request, Response};
use std::alloc::{AllocError, Global};
use tars_codec::decode;
use tars_decode::Refuse;
use tars_model::{FuncDesc, List, Member, Schema, Value, args_of};

/// The request or its arguments do not read.
const NOT_READ: i32 = -1;

/// There is no such function.
const NO_FUNCTION: i32 = -3;

/// There is no such servant.
const NO_SERVANT: i32 = -4;

/// What a request asks for.
#[derive(Drop)]
pub(crate) enum Asked {
    /// This return code, without a servant.
    Code(i32),
    /// A call of the function of this number.
    Call { func: u32, args: List<Value> },
}

fn is_version_1(version: i16) -> bool
    ensures { result ≡ is_one version }
{
    version == 1
}

#[tactic(auto, unfolding(crate::specs::Answers::PING))]
fn is_ping(func: &[u8]) -> bool
    ensures { result ≡ bytes_eq func.now PING }
{
    func == b"tars_ping".as_slice()
}

/// The code of the first case that needs no function.
fn early_code(name: &[u8], request: &Request) -> Option<i32>
    ensures { result ≡ first_code (early_cases name.now request.now) }
{
    if !is_version_1(request.version) {
        return Some(NOT_READ);
    }
    if request.servant.as_slice() != name {
        return Some(NO_SERVANT);
    }
    if is_ping(request.func.as_slice()) {
        return Some(SUCCESS);
    }
    None
}

/// The number of the first function of that name.
fn number_of(funcs: &[FuncDesc], name: &[u8]) -> Option<usize>
    ensures number { result ≡ position (λ (func : AFunc). bytes_eq name.now func.name) funcs.now }
    ensures within { IfSome result (λ number. number < length funcs.now) }
{
    funcs.iter().position(|func| name == func.name.as_slice())
}

/// The values that bytes say under the members; none where they do not read.
fn read_values(
    alloc: Global,
    schema: &Schema,
    members: &[Member],
    bytes: &[u8],
) -> Result<Option<List<Value>>, AllocError>
    requires short { length bytes.now < 2 ^ 32 }
    requires members { MembersFit schema.now members.now }
    ensures values { IfOk result (λ values. values ≡ values_of schema.now members.now bytes.now) }
    ensures fits { IfOk result (λ values. IfSome values (λ values. fit_members schema.now members.now values ≡ true)) }
{
    match decode(alloc, schema, members, bytes) {
        Ok(values) => Ok(Some(values)),
        Err(Refuse::Memory) => Err(AllocError),
        Err(Refuse::Malformed(_)) => Ok(None),
        Err(Refuse::Missing { path: _ }) => Ok(None),
        Err(Refuse::Mismatch { path: _, why: _ }) => Ok(None),
    }
}

/// The arguments that a body says for a function; none where it does not read.
fn arguments(
    alloc: Global,
    schema: &Schema,
    func: &FuncDesc,
    body: &[u8],
) -> Result<Option<List<Value>>, AllocError>
    requires few { length func.now.params ≤ MAX_PARAMS }
    requires members { MembersFit schema.now (arguments_of func.now) }
    requires short { length body.now < 2 ^ 32 }
    ensures values { IfOk result (λ args. args ≡ values_of schema.now (arguments_of func.now) body.now) }
    ensures fits { IfOk result (λ args. IfSome args (λ args. fit_members schema.now (arguments_of func.now) args ≡ true)) }
{
    let members = args_of(alloc, func)?;
    read_values(alloc, schema, members.as_slice(), body)
}

/// What a request asks for.
fn asked_by(
    alloc: Global,
    schema: &Schema,
    interface: u32,
    name: &[u8],
    request: &Request,
) -> Result<Asked, AllocError>
    requires interface { interface < length schema.now.interfaces }
    requires short { length request.now.body < 2 ^ 32 }
    ensures { IfOk result (Asks schema.now (functions_of schema.now interface) name.now request.now) }
{
    if let Some(code) = early_code(name, request) {
        return Ok(Asked::Code(code));
    }
    let Some(func) = number_of(funcs_of(schema, interface), request.func.as_slice()) else {
        return Ok(Asked::Code(NO_FUNCTION));
    };
    let desc = func_at(schema, interface, func);
    match arguments(alloc, schema, desc, request.body.as_slice())? {
        Some(args) => Ok(Asked::Call {
            func: func as u32,
            args,
        }),
        None => Ok(Asked::Code(NOT_READ)),
    }
}

/// What the servant of this name and interface answers to a request at the moment `now`, in milliseconds. None where the request is
/// one-way or the servant is silent.
pub fn answer<S: Servant>(
    alloc: Global,
    packets: &Packets,
    schema: &Schema,
    interface: u32,
    name: &[u8],
    servant: &mut S,
    request: &Request,
    now: u32,
) -> Result<Option<Response>, AllocError>
    requires interface { interface < length schema.now.interfaces }
    // In every state that the servant comes to its replies fit the calls of the interface.
    requires suited { Always (IsSuited schema.now (functions_of schema.now interface)) (S.meaning servant.old) }
    requires short { length request.now.body < 2 ^ 32 }
    ensures answered { IfOk result (λ response. response ≡ answered schema.now interface name.now (S.meaning servant.old []) request.now now) }
    // The servant handles the call of a request where none of the cases holds, and else nothing.
    ensures handled { OnOk result (IsAfter (S.meaning servant.old) (handled_by schema.now interface name.now request.now now) (S.meaning servant.new)) }
{
    match asked_by(alloc, schema, interface, name, request)? {
        Asked::Code(code) => {
            if is_one_way(request) {
                return Ok(None);
            }
            Ok(Some(code_alone(alloc, request, code)))
        }
        Asked::Call { func, args } => {
            let reply = servant.reply(alloc, func, args.as_slice(), now)?;
            if is_one_way(request) {
                return Ok(None);
            }
            let func = func_at(schema, interface, func as usize);
            replied(alloc, packets, schema, func, request, reply)
        }
    }
}

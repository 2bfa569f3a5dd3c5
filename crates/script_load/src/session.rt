//! The session that a script says, over the schemas of both sides.

ghost use Rattle.std.specs.Prelude.{◌≡◌, ◌<◌, length, position, IfOk, IfErr, IfSome};
ghost use Rattle.script_lines.specs.ScriptLimits.{KeepsLimits};
ghost use Rattle.script_lines.specs.Views.{script_of, object_of, interface_line};
ghost use Rattle.script_load.specs.LineFaults.{IsFirstFault};
ghost use Rattle.script_load.specs.LineSteps.{OnFault, AreTheFuncs, IsOfFile, LacksInterface, AreHeaders};
ghost use Rattle.script_load.specs.Sessions.{IsSession, object_name};
ghost use Rattle.script_load.specs.Sides.{interface_number, is_named, funcs_at};
ghost use Rattle.script_session.specs.Judged.{IsJudged};
ghost use Rattle.tars_model.specs.Schemas.{IsSchema};

use crate::calls::events_of;
use crate::faults::{LineFault, LineRefusal, LineWhy};
use crate::rules::rules_of;
use crate::sides::Sides;
use script_lines::{InterfaceLine, ObjectWords, QueueWords, ScriptLines};
use script_rules::lines_are_judged;
use script_session::{Endpoint, FuncRule, Loaded, ObjectName, Session};
use std::alloc::{AllocError, Global};
use tars_model::{FuncDesc, InterfaceDesc, List, Name, Schema};
use value_text::one_value;

/// The queue of a script without a `queue` line.
const QUEUE: QueueWords = QueueWords {
    capacity: 1000,
    timeout: 3000,
};

/// The object with its one node.
fn object_name(alloc: Global, words: &ObjectWords<'_>) -> Result<ObjectName, AllocError>
    ensures { IfOk result (λ object. object ≡ object_name (object_of words.now)) }
{
    let node = Endpoint {
        host: Name::from_slice(alloc, words.host)?,
        port: words.port,
        timeout: words.timeout,
    };
    let mut nodes = List::new(alloc);
    nodes.push(node)?;
    Ok(ObjectName {
        id: Name::from_slice(alloc, words.id)?,
        nodes,
    })
}

/// The place of the first interface of the line's module and name.
fn place_of(interfaces: &[InterfaceDesc], line: &InterfaceLine<'_>) -> Option<usize>
    ensures place { result ≡ position (is_named (interface_line line.now)) interfaces.now }
    ensures within { IfSome result (λ place. place < length interfaces.now) }
{
    interfaces.iter().position(|i| line.module == i.module.as_slice()
        && line.name == i.name.as_slice())
}

/// The number of that interface in a schema.
fn interface_number(schema: &Schema, line: &InterfaceLine<'_>) -> Option<u32>
    ensures number { result ≡ interface_number schema.now (interface_line line.now) }
    ensures within { IfSome result (λ number. number < length schema.now.interfaces) }
{
    // By its rules a schema has few interfaces.
    let _ = schema.order();
    let place = place_of(schema.interfaces(), line)?;
    Some(place as u32)
}

/// The functions of an interface, or none.
fn funcs_at(schema: &Schema, number: Option<u32>) -> &[FuncDesc]
    ensures funcs { result.now ≡ funcs_at schema.now number }
    ensures are { AreTheFuncs result.now }
{
    let _ = schema.order();
    match number {
        Some(number) => match schema.interfaces().get(number as usize) {
            Some(interface) => interface.funcs.as_slice(),
            None => &[],
        },
        None => &[],
    }
}

/// What interface files declare are schemas, on both sides.
fn are_schemas(sides: &Sides)
    ensures client { IsSchema sides.now.client }
    ensures server { IsSchema sides.now.server }
{
    let _client = sides.client.order();
    let _server = sides.server.order();
}

/// What the headers of a script say over the schemas.
#[derive(Drop)]
struct Headers {
    client_interface: u32,
    server_interface: u32,
    rules: List<FuncRule>,
}

/// The refusal of an interface that a side does not have, or the fault of an earlier rule.
fn without_interface(at: u32, rules: Result<List<FuncRule>, LineRefusal>) -> LineRefusal
    ensures { LacksInterface at rules result }
{
    match rules {
        Err(LineRefusal::Memory) => LineRefusal::Memory,
        Err(LineRefusal::Fault(fault)) if fault.at < at => LineRefusal::Fault(fault),
        _ => LineRefusal::Fault(LineFault {
            at,
            why: LineWhy::UnknownName,
        }),
    }
}

fn read_headers(
    alloc: Global,
    sides: &Sides,
    script: &ScriptLines<'_>,
) -> Result<Headers, LineRefusal>
    requires file { IsOfFile (script_of script.now) }
    ensures headers { IfOk result (λ h. AreHeaders sides.now.client sides.now.server (script_of script.now) h) }
    ensures fault { IfErr result (λ refusal. OnFault refusal
        (IsFirstFault sides.now.client sides.now.server (script_of script.now))) }
{
    one_value();
    lines_are_judged();
    are_schemas(sides);
    let client = interface_number(&sides.client, &script.interface);
    let server = interface_number(&sides.server, &script.interface);
    let funcs = funcs_at(&sides.server, server);
    let rules = rules_of(alloc, &sides.server, funcs, &script.rules);
    match (client, server) {
        (Some(client_interface), Some(server_interface)) => Ok(Headers {
            client_interface,
            server_interface,
            rules: rules?,
        }),
        _ => Err(without_interface(script.interface.at, rules)),
    }
}

fn read_session(
    alloc: Global,
    sides: Sides,
    script: &ScriptLines<'_>,
) -> Result<Session, LineRefusal>
    requires file { IsOfFile (script_of script.now) }
    requires limits { KeepsLimits (script_of script.now) }
    ensures session { IfOk result (λ session. IsSession (script_of script.now) sides.client sides.server session) }
    ensures judged { IfOk result (λ session. IsJudged session) }
    ensures fault { IfErr result (λ refusal. OnFault refusal (IsFirstFault sides.client sides.server (script_of script.now))) }
{
    one_value();
    lines_are_judged();
    are_schemas(&sides);
    let headers = read_headers(alloc, &sides, script)?;
    let funcs = funcs_at(&sides.client, Some(headers.client_interface));
    let events = events_of(alloc, &sides.client, funcs, &script.events)?;
    let object = object_name(alloc, &script.object)?;
    let queue = script.queue.unwrap_or(QUEUE);
    Ok(Session {
        client: sides.client,
        client_interface: headers.client_interface,
        server: sides.server,
        server_interface: headers.server_interface,
        object,
        rules: headers.rules,
        queue: queue.capacity,
        queue_timeout: queue.timeout,
        events,
    })
}

/// The session that the script says, judged, or the first fault.
pub fn session_of(
    alloc: Global,
    sides: Sides,
    script: &ScriptLines<'_>,
) -> Result<Loaded, LineRefusal>
    requires file { IsOfFile (script_of script.now) }
    requires limits { KeepsLimits (script_of script.now) }
    ensures session { IfOk result (λ l. IsSession (script_of script.now) sides.client sides.server l) }
    ensures fault { IfErr result (λ refusal. OnFault refusal (IsFirstFault sides.client sides.server (script_of script.now))) }
{
    Ok(Loaded::new(read_session(alloc, sides, script)?))
}

//! The events of a script, whose calls are over the client's interface.

ghost use Rattle.std.specs.Prelude.{◌≡◌, ◌≤◌, ◌<◌, ◌^◌, ◌-◌, map, count_by, length, IfOk, IfErr};
ghost use Rattle.std.specs.List.{All};
ghost use Rattle.script_lines.specs.Meanings.{is_call};
ghost use Rattle.script_lines.specs.TextLimits.{MAX_LINE, MAX_CALLS};
ghost use Rattle.script_lines.specs.Views.{event_of as said, event_line};
ghost use Rattle.script_lines.specs.declared.event.EventLine.{EventLine as Written};
ghost use Rattle.script_load.specs.LineFaults.{HasCallFault, HasEventFault};
ghost use Rattle.script_load.specs.LineSteps.{OnFault, AreTheFuncs, FitsCall, FitsEvent, HaveEventFault};
ghost use Rattle.script_load.specs.Sessions.{IsCallOf, IsEventOf, AreEvents, next_number};
ghost use Rattle.script_rules.specs.Rules.{IsJudgedEvent};

use crate::faults::{LineFault, LineRefusal, LineWhy};
use script_lines::{EventLine, EventWords};
use script_rules::{function_of, read_call};
use script_session::{CallSpec, Event};
use script_values::ArgsFault;
use std::alloc::Global;
use tars_model::{FuncDesc, List, Schema};

/// The number of the one node.
const NODE: u32 = 1;

/// The call of this number that a line says.
fn call_of(
    alloc: Global,
    schema: &Schema,
    funcs: &[FuncDesc],
    at: u32,
    number: u32,
    name: &[u8],
    text: &[u8],
) -> Result<CallSpec, LineRefusal>
    requires funcs { AreTheFuncs funcs.now }
    requires short { length text.now ≤ MAX_LINE }
    ensures means { IfOk result (λ spec. IsCallOf schema.now funcs.now number name.now text.now spec) }
    ensures fits { IfOk result (λ spec. FitsCall schema.now funcs.now spec) }
    ensures fault { IfErr result (λ refusal. OnFault refusal
        (λ fault. (fault.at ≡ at) × HasCallFault schema.now funcs.now name.now text.now fault.why)) }
{
    let Some(func) = function_of(funcs, name) else {
        return Err(LineRefusal::Fault(LineFault {
            at,
            why: LineWhy::UnknownName,
        }));
    };
    match read_call(alloc, schema, &funcs[func as usize], text) {
        Ok(args) => Ok(CallSpec {
            call: number,
            line: 1,
            func,
            two_way: true,
            begin: false,
            key: 0,
            args,
        }),
        Err(ArgsFault::Bad) => Err(LineRefusal::Fault(LineFault {
            at,
            why: LineWhy::BadValue,
        })),
        Err(ArgsFault::Memory) => Err(LineRefusal::Memory),
    }
}

/// The event that a line says, where the next call has this number.
fn event_of(
    alloc: Global,
    schema: &Schema,
    funcs: &[FuncDesc],
    number: u32,
    line: &EventLine<'_>,
) -> Result<Event, LineRefusal>
    requires funcs { AreTheFuncs funcs.now }
    requires judged { IsJudgedEvent (event_line line.now).event }
    ensures means { IfOk result (λ event. IsEventOf schema.now funcs.now number (event_line line.now).event event) }
    ensures fits { IfOk result (λ event. FitsEvent schema.now funcs.now event) }
    ensures fault { IfErr result (λ refusal. OnFault refusal
        (λ fault. (fault.at ≡ line.now.at) × HasEventFault schema.now funcs.now (event_line line.now).event fault.why)) }
{
    match line.event {
        EventWords::Call { func, args } => Ok(Event::Call(call_of(
            alloc, schema, funcs, line.at, number, func, args,
        )?)),
        EventWords::Serve { bytes } => Ok(Event::Serve { node: NODE, bytes }),
        EventWords::Work => Ok(Event::Work { node: NODE }),
        EventWords::Deliver { bytes } => Ok(Event::Deliver { node: NODE, bytes }),
        EventWords::Close => Ok(Event::Close),
    }
}

/// The number of the call that comes after this event.
fn next_number(number: u32, event: &EventWords<'_>) -> u32
    requires { number < 2 ^ 32 - 1 }
    ensures { result ≡ next_number number (said event.now) }
{
    match event {
        EventWords::Call { .. } => number + 1,
        _ => number,
    }
}

/// The events that the lines say, with their calls numbered from 1, or the fault of the first that says none.
pub fn events_of(
    alloc: Global,
    schema: &Schema,
    funcs: &[FuncDesc],
    lines: &[EventLine<'_>],
) -> Result<List<Event>, LineRefusal>
    requires funcs { AreTheFuncs funcs.now }
    requires judged { All (λ (line : Written). IsJudgedEvent (event_line line).event) lines.now }
    requires calls { count_by (λ (line : Written). is_call (event_line line).event) lines.now ≤ MAX_CALLS }
    ensures means { IfOk result (λ events. AreEvents schema.now funcs.now 1 (map event_line lines.now) events) }
    ensures fits { IfOk result (λ events. All (FitsEvent schema.now funcs.now) events) }
    ensures fault { IfErr result (λ refusal. OnFault refusal (HaveEventFault schema.now funcs.now (map event_line lines.now))) }
{
    let mut events = List::new(alloc);
    let mut number = 1;
    for line in lines {
        let event = event_of(alloc, schema, funcs, number, line)?;
        events.push(event)?;
        number = next_number(number, &line.event);
    }
    Ok(events)
}

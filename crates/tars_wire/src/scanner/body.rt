ghost use Rattle.std.specs.Prelude.{◌≡◌, ◌<◌, ◌^◌, length, List, [], OnOk, IfOk, IfErr, IsOk, Err};
ghost use Rattle.tars_wire.specs.Spelled.{IsBody};
ghost use Rattle.tars_wire.specs.Faults.{IsFault};
ghost use Rattle.tars_wire.specs.ScanSteps.{Gives, body_at};

use super::contents::past_contents;
use super::heads::read_head;
use crate::checked::Checked;
use crate::head_context::{HeadContext, MAX_OPEN};
use crate::stop::Stop;
use crate::wire_fault::WireFault;

/// To the end of a body.
fn past_body(bytes: &[u8]) -> Result<(), Stop>
    ensures { Gives (λ _. []) result (body_at 0 bytes.now) }
{
    let mut rest = bytes;
    let mut from = 0;
    while !rest.is_empty() {
        let (head, after) = read_head(HeadContext::Body { from }, rest)?;
        rest = past_contents(MAX_OPEN, head.kind, after)?;
        from = u16::from(head.tag) + 1;
    }
    Ok(())
}

/// Accepts exactly the bodies: fields with strictly rising tags to the end of the bytes, with at most 64
/// lists, maps and structs inside one another (docs/PROTOCOL.md, "Reading"). Else the fault names the first
/// byte after which nothing makes the bytes a body.
pub fn scan(bytes: &[u8]) -> Result<Checked<'_>, WireFault>
    requires { length bytes.now < 2 ^ 32 }
    // What is accepted is a body.
    ensures accepted { IfOk result (λ checked. (checked ≡ bytes.now) × IsBody bytes.now) }
    // Every body is accepted.
    ensures only { IsBody bytes.now → IsOk result }
    // What is refused has this fault: it is at the end of the longest prefix that some body goes on from.
    ensures fault { IfErr result (λ fault. IsFault bytes.now fault) }
    // Bytes that have a fault are refused, with that one.
    ensures refused { (fault : WireFault) → IsFault bytes.now fault → result ≡ Err fault }
{
    match past_body(bytes) {
        Ok(()) => Ok(Checked::new(bytes)),
        Err(stop) => Err(WireFault {
            at: (bytes.len() - stop.left) as u32,
            why: stop.why,
        }),
    }
}

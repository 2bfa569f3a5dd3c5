ghost use Rattle.std.specs.Prelude.{◌≡◌, ◌<◌, length, IfOk};
ghost use Rattle.tars_wire.specs.ScanSteps.{Gives, tag_at, head_at};

use crate::head::{FirstByte, Head};
use crate::head_context::HeadContext;
use crate::stop::{SHORT, Stop};
use crate::wire_type::WireType;

/// The tag of a head in a byte of its own.
#[tactic(auto, unfolding(crate::specs::ScanSteps::tag_at))]
fn read_tag(context: HeadContext, kind: WireType, bytes: &[u8]) -> Result<(Head, &[u8]), Stop>
    ensures read { Gives (λ x. (x.0, x.1.now)) result (tag_at context kind bytes.now) }
    ensures tag { IfOk result (λ x. x.0.tag < 256) }
{
    let [tag, rest @ ..] = bytes else {
        return Err(SHORT);
    };
    let tag = *tag;
    match context.tag_fault(kind, tag) {
        None => Ok((Head { tag, kind }, rest)),
        Some(why) => Err(Stop {
            left: bytes.len(),
            why,
        }),
    }
}

/// A head in either form, in a context.
#[tactic(auto, unfolding(crate::specs::ScanSteps::head_at))]
#[inline(always)]
pub fn read_head(context: HeadContext, bytes: &[u8]) -> Result<(Head, &[u8]), Stop>
    ensures read { Gives (λ x. (x.0, x.1.now)) result (head_at context bytes.now) }
    ensures tag { IfOk result (λ x. x.0.tag < 256) }
{
    let [first, rest @ ..] = bytes else {
        return Err(SHORT);
    };
    match context.first_byte(*first) {
        Ok(FirstByte::Whole(head)) => Ok((head, rest)),
        Ok(FirstByte::Long(kind)) => read_tag(context, kind, rest),
        Err(why) => Err(Stop {
            left: bytes.len(),
            why,
        }),
    }
}

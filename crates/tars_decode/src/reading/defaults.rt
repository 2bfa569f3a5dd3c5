ghost use Rattle.tars_decode.specs.ReadingSteps.{Gives, absent};

use crate::halt::{Halt, Refusal};
use std::alloc::Global;
use tars_model::{List, Member, Value, copy_value};

/// The default of an optional member.
#[tactic(auto, unfolding(crate::specs::ReadingSteps::absent))]
pub fn absent(alloc: Global, member: &Member) -> Result<Value, Halt>
    ensures { Gives (λ x. x) result (absent member.now) }
{
    if member.require {
        let path = List::new(alloc);
        let halt = Halt::Refused(Refusal::Missing { path });
        return Err(halt.under(alloc, u32::from(member.tag)));
    }
    Ok(copy_value(alloc, &member.default)?)
}

ghost use Rattle.std.specs.Prelude.{◌≡◌, IfOk};

use std::alloc::{AllocError, Global};
use tars_model::{Value, copy_value};

/// How a table replies to the calls of a function. Arguments go by their places among the parameters that are not `out`, from 0.
#[derive(Drop)]
pub enum Rule {
    /// It returns this value.
    Value(Value),
    /// It returns the argument at this place.
    Echo(u32),
    /// It returns the sum of the arguments at these places, and the return code -99 where the sum is none of its type.
    Add(u32, u32),
    /// It gives this return code, which is not 0.
    Code(i32),
    /// It sends no response.
    Silent,
}

impl Rule {
    /// The same rule once more.
    pub fn copy(&self, alloc: Global) -> Result<Rule, AllocError>
        ensures { IfOk result (λ rule. rule ≡ self.now) }
    {
        Ok(match self {
            Rule::Value(value) => Rule::Value(copy_value(alloc, value)?),
            Rule::Echo(place) => Rule::Echo(*place),
            Rule::Add(first, second) => Rule::Add(*first, *second),
            Rule::Code(code) => Rule::Code(*code),
            Rule::Silent => Rule::Silent,
        })
    }
}

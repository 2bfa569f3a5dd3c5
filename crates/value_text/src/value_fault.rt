ghost use Rattle.std.specs.Prelude.{◌≡◌};
ghost use Rattle.value_text.specs.ValueWhy.{number_of};

/// Why a text begins with no value of the wanted type (docs/SCRIPTS.md, "Value text").
#[derive(Clone, Copy)]
pub enum ValueFault {
    /// The first fault from the left, and the byte of the text that it stands at.
    Bad { at: u32, why: ValueWhy },
    Memory,
}

/// What is wrong at the place of a fault.
#[derive(Clone, Copy)]
pub enum ValueWhy {
    /// The first byte that does not continue a value, or the end of the text.
    Unexpected,
    /// The first byte of a number that is out of its type's range.
    Range,
    /// The first byte of a key that an entry before has.
    TwiceKey,
}

impl ValueWhy {
    /// The number under which it is reported.
    pub fn number(self) -> u8
        ensures { result ≡ number_of self }
    {
        match self {
            ValueWhy::Unexpected => 1,
            ValueWhy::Range => 2,
            ValueWhy::TwiceKey => 3,
        }
    }
}

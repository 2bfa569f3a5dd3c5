ghost use Rattle.std.specs.Prelude.{◌≡◌};
ghost use Rattle.tars_wire.specs.PrefixSteps.{less, HasMore, is_over};

/// What is open around the next field, and how many fields of a list or a map are left there.
#[derive(Clone, Copy)]
pub enum Level {
    Body,
    Struct,
    List { left: u32 },
    /// Keys and values are counted one by one.
    Map { left: u32 },
}

impl Level {
    /// One field less.
    #[tactic(auto, unfolding(crate::specs::PrefixSteps::less))]
    pub fn less(self) -> Level
        requires { HasMore self }
        ensures { result ≡ less self }
    {
        match self {
            Level::Body => Level::Body,
            Level::Struct => Level::Struct,
            Level::List { left } => Level::List { left: left - 1 },
            Level::Map { left } => Level::Map { left: left - 1 },
        }
    }

    /// Whether nothing is left, but for the end of a struct.
    #[tactic(auto, unfolding(crate::specs::PrefixSteps::is_over))]
    pub fn is_over(self, rest: &[u8]) -> bool
        ensures { result ≡ is_over self rest.now }
    {
        match self {
            Level::Body => rest.is_empty(),
            Level::Struct => false,
            Level::List { left } => left == 0,
            Level::Map { left } => left == 0,
        }
    }
}

ghost use Rattle.std.specs.Prelude.{◌≡◌, Some};
ghost use Rattle.tars_wire.specs.Faults.{number_of, word_of, words_of};

use std::fmt;

/// Why bytes are no body.
#[derive(Clone, Copy, Debug, PartialEq, Eq)]
pub enum WireWhy {
    /// The bytes end inside a body.
    Short,
    /// Types 14 and 15, a struct's end where no struct ends, or a type that no size, or no simple list,
    /// begins with.
    BadType,
    /// A negative size.
    BadSize,
    /// A wrong tag on a size, an element, a key, a map's value, a simple list's own head or a struct's end.
    BadTag,
    /// A tag that is not above the one before it.
    Order,
    /// More lists, maps and structs inside one another than 64.
    Depth,
}

impl WireWhy {
    /// Its number in faults that are printed, from 1.
    pub fn number(self) -> u8
        ensures { result ≡ number_of self }
    {
        match self {
            WireWhy::Short => 1,
            WireWhy::BadType => 2,
            WireWhy::BadSize => 3,
            WireWhy::BadTag => 4,
            WireWhy::Order => 5,
            WireWhy::Depth => 6,
        }
    }
}

impl fmt::Display for WireWhy {
    ghost output = { λ why. Some (word_of why) };

    fn fmt<W: fmt::Write>(&self, f: &mut fmt::Formatter<W>) -> fmt::Result {
        f.write_str(match self {
            WireWhy::Short => "short",
            WireWhy::BadType => "bad type",
            WireWhy::BadSize => "bad size",
            WireWhy::BadTag => "bad tag",
            WireWhy::Order => "order",
            WireWhy::Depth => "depth",
        })
    }
}

/// The first byte after which nothing makes the bytes a body, counted from 0.
#[derive(Clone, Copy, PartialEq, Eq)]
pub struct WireFault {
    /// The number of bytes before it. All of them for `Short`.
    pub at: u32,
    pub why: WireWhy,
}

impl fmt::Display for WireFault {
    ghost output = { λ fault. Some (words_of fault) };

    fn fmt<W: fmt::Write>(&self, f: &mut fmt::Formatter<W>) -> fmt::Result {
        let WireFault { at, why } = self;
        write!(f, "{why} at {at}")
    }
}

ghost use Rattle.std.specs.Prelude.{◌≡◌};
ghost use Rattle.idl_scene.specs.Faults.{number_of};

/// Why interface files are refused (docs/IDL.md, "Rules").
#[derive(Clone, Copy)]
pub enum CheckWhy {
    /// An included name is no file before this one.
    NoInclude,
    /// A name stands twice.
    TwiceName,
    /// A name is not declared before.
    UnknownName,
    /// A declared name has `tars_` in it.
    BadIdentifier,
    /// A tag stands twice in a struct.
    TwiceTag,
    /// A tag is not 0 to 255.
    TagRange,
    /// `float` or `double`.
    Float,
    /// A map's key is of another type than keys may be.
    BadKey,
    /// A literal, or an enumerator's number, does not fit.
    BadDefault,
    /// A type or struct is deeper than 32.
    TooDeep,
    /// `routekey`, an array or `vector<unsigned byte>`.
    LeftOut,
    /// A limit is passed.
    TooMany,
}

impl CheckWhy {
    /// The number under which it is reported.
    pub fn number(self) -> u8
        ensures { result ≡ number_of self }
    {
        match self {
            CheckWhy::NoInclude => 1,
            CheckWhy::TwiceName => 2,
            CheckWhy::UnknownName => 3,
            CheckWhy::BadIdentifier => 4,
            CheckWhy::TwiceTag => 5,
            CheckWhy::TagRange => 6,
            CheckWhy::Float => 7,
            CheckWhy::BadKey => 8,
            CheckWhy::BadDefault => 9,
            CheckWhy::TooDeep => 10,
            CheckWhy::LeftOut => 11,
            CheckWhy::TooMany => 12,
        }
    }
}

/// What is wrong, and where: the file by its place in the list, and the byte of its text.
#[derive(Clone, Copy)]
pub struct Fault {
    pub file: u32,
    pub at: u32,
    pub why: CheckWhy,
}

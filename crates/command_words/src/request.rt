ghost use Rattle.std.specs.Prelude.{◌≡◌};
ghost use Rattle.command_words.specs.declared.request.WordsFault.TheVariants.{Memory as no_memory};

use std::alloc::AllocError;
use tars_model::StructName;

/// A struct, in its interface file and in a file with its values.
#[derive(Clone, Copy)]
pub struct OnStruct<'a> {
    pub file: &'a str,
    pub of: StructName<'a>,
    pub values: &'a str,
}

/// A struct in two interface files: as it was, and as it is to be.
#[derive(Clone, Copy)]
pub struct OldNew<'a> {
    pub old: &'a str,
    pub new: &'a str,
    pub of: StructName<'a>,
}

/// What the words ask for, and of which files.
#[derive(Clone, Copy)]
pub enum Request<'a> {
    /// `check FILE`
    Check(&'a str),
    /// `plan SCRIPT`
    Plan(&'a str),
    /// `encode FILE STRUCT VALUES`
    Encode(OnStruct<'a>),
    /// `decode FILE STRUCT HEX`
    Decode(OnStruct<'a>),
    /// `compat OLD NEW STRUCT`
    Compat(OldNew<'a>),
}

/// Why words ask for nothing.
#[derive(Clone, Copy, Debug, PartialEq, Eq)]
pub enum WordsFault {
    /// They are no form of a command.
    Usage,
    Memory,
}

impl From<AllocError> for WordsFault {
    ghost from_gives = { λ _ e. e ≡ no_memory };

    fn from(_: AllocError) -> Self {
        WordsFault::Memory
    }
}

ghost use Rattle.std.specs.Prelude.{◌≡◌};
ghost use Rattle.idl_load.specs.LoadSteps.{lex_refused, parse_refused};

use crate::file_fault::FileFault;
use idl_lex::LexFault;
use idl_parse::ParseFault;

/// Why a text has no tree.
#[derive(Clone, Copy)]
pub enum TreeFault {
    Refused(FileFault),
    Memory,
}

impl From<LexFault> for TreeFault {
    ghost from_gives = { λ fault e. e ≡ lex_refused fault };

    fn from(fault: LexFault) -> Self {
        match fault {
            LexFault::Bad { at, why } => TreeFault::Refused(FileFault::Lex { at, why }),
            LexFault::Memory => TreeFault::Memory,
        }
    }
}

impl From<ParseFault> for TreeFault {
    ghost from_gives = { λ fault e. e ≡ parse_refused fault };

    fn from(fault: ParseFault) -> Self {
        match fault {
            ParseFault::Bad { at, why } => TreeFault::Refused(FileFault::Parse { at, why }),
            ParseFault::Memory => TreeFault::Memory,
        }
    }
}

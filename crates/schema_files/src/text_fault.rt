ghost use Rattle.std.specs.Prelude.{◌≡◌};
ghost use Rattle.idl_scene.specs.Faults.{number_of as rule_number_of};
ghost use Rattle.schema_files.specs.Refusals.{fault_at, file_fault};

use crate::Stage;
use idl_check::CheckWhy;
use idl_load::FileFault;
use tars_base::MAX_FILE;

/// Why a text is refused: what judged it, the number that the reason has there, and the offset.
#[derive(Clone, Copy)]
pub struct TextFault {
    pub stage: Stage,
    pub number: u8,
    pub offset: u32,
}

impl TextFault {
    /// What refuses a file that is too long, and where.
    pub(crate) const TOO_LONG: TextFault = TextFault {
        stage: Stage::Size,
        number: 1,
        offset: MAX_FILE as u32,
    };

    /// A rule that interface files break at a byte of a text.
    pub(crate) fn of_rule(at: u32, why: CheckWhy) -> TextFault
        ensures { result ≡ fault_at Stage.Check (rule_number_of why) at }
    {
        TextFault {
            stage: Stage::Check,
            number: why.number(),
            offset: at,
        }
    }
}

impl From<FileFault> for TextFault {
    ghost from_gives = { λ fault e. e ≡ file_fault fault };

    fn from(fault: FileFault) -> Self {
        let (stage, number, offset) = match fault {
            FileFault::TooLong => return TextFault::TOO_LONG,
            FileFault::Lex { at, why } => (Stage::Lex, why.number(), at),
            FileFault::Parse { at, why } => (Stage::Parse, why.number(), at),
            FileFault::TooManyFiles { at } => return TextFault::of_rule(at, CheckWhy::TooMany),
        };
        TextFault {
            stage,
            number,
            offset,
        }
    }
}

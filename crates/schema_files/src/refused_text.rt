//! Texts that are refused (docs/SCRIPTS.md, "Refusals").

ghost use Rattle.std.specs.Prelude.{◌≡◌, IfOk};
ghost use Rattle.schema_files.specs.LoadAnswers.{IsRefusedBy};
ghost use Rattle.schema_files.specs.Refusals.{refusal_line as line_of};

use crate::{LoadFault, TextFault};
use std::alloc::{AllocError, Global};
use tars_model::Bytes8;
use text_buffer::TextBuffer;

/// The line that refuses a file.
#[tactic(auto, unfolding(crate::specs::Refusals::refusal_line))]
pub fn refusal_line(alloc: Global, file: &[u8], fault: TextFault) -> Result<Bytes8, AllocError>
    ensures { IfOk result (λ line. line ≡ line_of file.now fault) }
{
    let TextFault {
        stage,
        number,
        offset,
    } = fault;
    let mut line = TextBuffer::new(alloc);
    line.word("refused ")?;
    line.put(file)?;
    line.show(format_args!(" {stage} {number} {offset}\n"))?;
    Ok(Bytes8::from_vec(line.into_bytes()))
}

/// Refuses the text of a file, if there is memory for the line.
pub fn refused(alloc: Global, file: &[u8], fault: TextFault) -> LoadFault
    ensures { IsRefusedBy (line_of file.now fault) result }
{
    match refusal_line(alloc, file, fault) {
        Ok(line) => LoadFault::Refused { line },
        Err(_) => LoadFault::Memory,
    }
}

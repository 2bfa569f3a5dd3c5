ghost use Rattle.std.specs.Prelude.{◌≡◌, ◌++◌, OnOk};
ghost use Rattle.refuse_lines.specs.RefuseText.{misfit_text, path_text, refuse_text};

use std::alloc::AllocError;
use tars_decode::{Misfit, Refuse};
use text_buffer::TextBuffer;

fn word_of(why: Misfit) -> &'static str
    ensures { result.now ≡ misfit_text why }
{
    match why {
        Misfit::WrongType => "wrongtype",
        Misfit::Range => "range",
        Misfit::TwiceKey => "twicekey",
    }
}

/// Adds the steps of a path.
pub fn put_path(text: &mut TextBuffer, path: &[u32]) -> Result<(), AllocError>
    ensures { OnOk result (text.new ≡ text.old ++ path_text path.now) }
{
    let [first, rest @ ..] = path else {
        return Ok(());
    };
    text.show(*first)?;
    for step in rest {
        text.show(format_args!("/{step}"))?;
    }
    Ok(())
}

/// Adds what is told of a refusal; of want of memory it is nothing.
#[tactic(auto, unfolding(crate::specs::RefuseText::refuse_text))]
pub fn put_refuse(text: &mut TextBuffer, refuse: &Refuse) -> Result<(), AllocError>
    ensures { OnOk result (text.new ≡ text.old ++ refuse_text refuse.now) }
{
    match refuse {
        Refuse::Malformed(fault) => {
            let (number, at) = (fault.why.number(), fault.at);
            text.show(format_args!("malformed {number} at {at}"))
        }
        Refuse::Missing { path } => {
            text.word("missing ")?;
            put_path(text, path.as_slice())
        }
        Refuse::Mismatch { path, why } => {
            text.word("mismatch ")?;
            put_path(text, path.as_slice())?;
            text.word(" ")?;
            text.word(word_of(*why))
        }
        Refuse::Memory => Ok(()),
    }
}

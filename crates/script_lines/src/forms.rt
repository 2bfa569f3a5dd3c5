//! What the lines of a script say, by their words. Which numbers are in range is judged later.

ghost use Rattle.std.specs.Prelude.{◌≡◌};
ghost use Rattle.script_lines.specs.Forms.{is_skipped};
ghost use Rattle.script_lines.specs.FormSteps.{form_by, said_at};
ghost use Rattle.script_lines.specs.ViewSteps.{line_form};
ghost use Rattle.script_lines.specs.ScanSteps.{Gives};

use crate::scan::{content, next_word};

mod event;
mod header;
mod rule;

pub use event::EventForm;
use event::read_event;
pub use header::HeaderForm;
use header::read_header;
pub use rule::RuleForm;

/// What a line says.
#[derive(Clone, Copy)]
pub enum LineForm<'a> {
    /// A comment, or nothing.
    Skipped,
    Header(HeaderForm<'a>),
    Event(EventForm<'a>),
}

/// Whether a line with this content is empty or a comment.
fn is_skipped(content: &[u8]) -> bool
    ensures { result ≡ is_skipped content.now }
{
    match content {
        [] => true,
        [first, ..] => *first == b'#',
    }
}

#[tactic(auto, unfolding(crate::specs::FormSteps::form_by))]
fn form_by<'a>(word: &[u8], rest: &'a [u8]) -> Option<LineForm<'a>>
    ensures { Gives line_form result (form_by word.now rest.now) }
{
    match read_header(word, rest) {
        Some(form) => Some(LineForm::Header(form)),
        None => Some(LineForm::Event(read_event(word, rest)?)),
    }
}

/// What the line says, if it has a form.
#[tactic(auto, unfolding(crate::specs::FormSteps::said_at))]
pub fn read_line(line: &[u8]) -> Option<LineForm<'_>>
    ensures { Gives line_form result (said_at line.now) }
{
    let content = content(line);
    if is_skipped(content) {
        return Some(LineForm::Skipped);
    }
    let (word, rest) = next_word(content)?;
    form_by(word, rest)
}

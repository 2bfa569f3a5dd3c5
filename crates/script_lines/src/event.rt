ghost use Rattle.std.specs.Prelude.{◌≡◌};
ghost use Rattle.script_lines.specs.Faults.{names_node};
ghost use Rattle.script_lines.specs.ViewSteps.{event_form};
ghost use Rattle.script_lines.specs.Meanings.{is_call, count_meant, read_meant, event_meant};
ghost use Rattle.script_lines.specs.ScanSteps.{Gives};
ghost use Rattle.script_lines.specs.Views.{event_of, text_of};

use crate::forms::EventForm;
use crate::limits::{CALLER, NODE};
use crate::numbers::within;

/// What happens.
#[derive(Clone, Copy)]
pub enum EventWords<'a> {
    /// The caller calls a function. The arguments are the rest of the line.
    Call { func: &'a [u8], args: &'a [u8] },
    /// The node reads so many bytes, or all that wait.
    Serve { bytes: Option<u32> },
    Work,
    /// The caller reads so many bytes, or all that wait.
    Deliver { bytes: Option<u32> },
    Close,
}

#[tactic(auto, unfolding(crate::specs::Meanings::count_meant))]
fn read_count(text: Option<&[u8]>) -> Option<Option<u32>>
    ensures { Gives (λ count. count) result (count_meant (text_of text.entry)) }
{
    match text {
        None => Some(None),
        Some(text) => Some(Some(within(text, 0, u32::MAX)?)),
    }
}

/// How many bytes of the node.
#[tactic(auto, unfolding(crate::specs::Meanings::read_meant))]
fn read_bytes(node: &[u8], count: Option<&[u8]>) -> Option<Option<u32>>
    ensures { Gives (λ count. count) result (read_meant node.now (text_of count.entry)) }
{
    within(node, NODE, NODE)?;
    read_count(count)
}

impl<'a> EventWords<'a> {
    /// What the words mean, if the numbers are in range.
    #[tactic(auto, unfolding(crate::specs::Meanings::event_meant))]
    pub(crate) fn read(form: EventForm<'a>) -> Option<EventWords<'a>>
        ensures { Gives event_of result (event_meant (event_form form.entry)) }
    {
        match form {
            EventForm::Call { caller, func, args } => {
                within(caller, CALLER, CALLER)?;
                Some(EventWords::Call { func, args })
            }
            EventForm::Serve { node, count } => Some(EventWords::Serve {
                bytes: read_bytes(node, count)?,
            }),
            EventForm::Work { node } => {
                within(node, NODE, NODE)?;
                Some(EventWords::Work)
            }
            EventForm::Deliver { node, count } => Some(EventWords::Deliver {
                bytes: read_bytes(node, count)?,
            }),
            EventForm::Close => Some(EventWords::Close),
        }
    }

    pub(crate) fn is_call(&self) -> bool
        ensures { result ≡ is_call (event_of self.now) }
    {
        matches!(self, EventWords::Call { .. })
    }
}

/// Whether the event speaks of a node.
pub(crate) fn names_node(form: &EventForm<'_>) -> bool
    ensures { result ≡ names_node (event_form form.now) }
{
    matches!(
        form,
        EventForm::Serve { .. } | EventForm::Work { .. } | EventForm::Deliver { .. }
    )
}

/// An event.
#[derive(Clone, Copy)]
pub struct EventLine<'a> {
    /// The offset of the line in the text.
    pub at: u32,
    pub event: EventWords<'a>,
}

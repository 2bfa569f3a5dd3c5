//! The events of a script, by their words.

ghost use Rattle.std.specs.Prelude.{option_map};
ghost use Rattle.script_lines.specs.FormSteps.{call_at, only_natural, count_at, read_at, close_at, event_by};
ghost use Rattle.script_lines.specs.ViewSteps.{event_form};
ghost use Rattle.script_lines.specs.Views.{text_of};
ghost use Rattle.script_lines.specs.ScanSteps.{Gives};

use crate::numbers::is_natural;
use crate::scan::{next_word, only_word};

/// What an event says. The numbers are texts.
#[derive(Clone, Copy)]
pub enum EventForm<'a> {
    Call {
        caller: &'a [u8],
        func: &'a [u8],
        args: &'a [u8],
    },
    Serve {
        node: &'a [u8],
        count: Option<&'a [u8]>,
    },
    Work {
        node: &'a [u8],
    },
    Deliver {
        node: &'a [u8],
        count: Option<&'a [u8]>,
    },
    Close,
}

#[tactic(auto, unfolding(crate::specs::FormSteps::call_at))]
fn read_call(rest: &[u8]) -> Option<EventForm<'_>>
    ensures { Gives event_form result (call_at rest.now) }
{
    let (caller, rest) = next_word(rest)?;
    let (func, args) = next_word(rest)?;
    if !is_natural(caller) {
        return None;
    }
    Some(EventForm::Call { caller, func, args })
}

#[tactic(auto, unfolding(crate::specs::FormSteps::only_natural))]
fn only_natural(rest: &[u8]) -> Option<&[u8]>
    ensures { Gives (λ word. word.now) result (only_natural rest.now) }
{
    let word = only_word(rest)?;
    is_natural(word).then_some(word)
}

#[tactic(auto, unfolding(crate::specs::FormSteps::count_at))]
fn read_count(rest: &[u8]) -> Option<Option<&[u8]>>
    ensures { Gives text_of result (count_at rest.now) }
{
    if rest.is_empty() {
        return Some(None);
    }
    Some(Some(only_natural(rest)?))
}

/// A node, and how many bytes, if the rest of the line says that.
#[tactic(auto, unfolding(crate::specs::FormSteps::read_at))]
fn node_and_count(rest: &[u8]) -> Option<(&[u8], Option<&[u8]>)>
    ensures { Gives (λ x. (x.0.now, text_of x.1)) result (read_at rest.now) }
{
    let (node, rest) = next_word(rest)?;
    let count = read_count(rest)?;
    if !is_natural(node) {
        return None;
    }
    Some((node, count))
}

#[tactic(auto, unfolding(crate::specs::FormSteps::close_at))]
fn read_close(rest: &[u8]) -> Option<EventForm<'_>>
    ensures { Gives event_form result (close_at rest.now) }
{
    if !rest.is_empty() {
        return None;
    }
    Some(EventForm::Close)
}

/// The event that the first word and the rest of the line say.
#[tactic(auto, unfolding(crate::specs::FormSteps::event_by))]
pub fn read_event<'a>(word: &[u8], rest: &'a [u8]) -> Option<EventForm<'a>>
    ensures { Gives event_form result (event_by word.now rest.now) }
{
    if word == b"call".as_slice() {
        read_call(rest)
    } else if word == b"serve".as_slice() {
        let (node, count) = node_and_count(rest)?;
        Some(EventForm::Serve { node, count })
    } else if word == b"work".as_slice() {
        Some(EventForm::Work {
            node: only_natural(rest)?,
        })
    } else if word == b"deliver".as_slice() {
        let (node, count) = node_and_count(rest)?;
        Some(EventForm::Deliver { node, count })
    } else if word == b"close".as_slice() {
        read_close(rest)
    } else {
        None
    }
}

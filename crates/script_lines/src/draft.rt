//! What the lines of a script have said so far.

ghost use Rattle.std.specs.Prelude.{◌≡◌};
ghost use Rattle.script_lines.specs.ViewSteps.{line_form};
ghost use Rattle.script_lines.specs.KeptSteps.{nothing_kept, keep_form, keep_line, script_from};
ghost use Rattle.script_lines.specs.AnswerSteps.{KeepsAt, Finishes};

use crate::event::EventLine;
use crate::fault::{ScriptFault, ScriptRefusal, ScriptWhy, refusal};
use crate::forms::{LineForm, read_line};
use crate::interface::InterfaceLine;
use crate::limits::MAX_LINE;
use crate::name_set::NameSet;
use crate::object::ObjectWords;
use crate::queue::QueueWords;
use crate::rule::RuleLine;
use crate::script_lines::ScriptLines;
use std::alloc::Global;
use std::marker::Model;

mod events;
mod headers;

/// What the lines of a script have said so far.
#[derive(Drop)]
pub struct Draft<'a> {
    client: Option<&'a str>,
    server: Option<&'a str>,
    interface: Option<InterfaceLine<'a>>,
    object: Option<ObjectWords<'a>>,
    rules: Vec<RuleLine<'a>>,
    /// The functions of the rules.
    funcs: NameSet<'a>,
    queue: Option<QueueWords>,
    events: Vec<EventLine<'a>>,
    /// How many of the events are calls.
    calls: usize,
}

impl<'a> Model for Draft<'a> {
    ghost use Rattle.std.specs.Prelude.{option_map, map};
    ghost use Rattle.script_lines.specs.KeptSteps.{Kept, kept};
    ghost use Rattle.script_lines.specs.Views.{text_of, object_of, queue_of, rule_line, event_line, interface_line};

    ghost Value = { Kept };

    ghost view = { λ d. kept (text_of d.client) (text_of d.server) (option_map interface_line d.interface) (option_map object_of d.object)
        (map rule_line d.rules.items) d.funcs (option_map queue_of d.queue) (map event_line d.events.items) d.calls };
}

impl<'a> Draft<'a> {
    pub fn new(alloc: Global) -> Draft<'a>
        ensures { result ≡ nothing_kept }
    {
        Draft {
            client: None,
            server: None,
            interface: None,
            object: None,
            rules: Vec::new(alloc),
            funcs: NameSet::new(alloc),
            queue: None,
            events: Vec::new(alloc),
            calls: 0,
        }
    }

    #[tactic(auto, unfolding(crate::specs::KeptSteps::keep_form))]
    fn keep_form(&mut self, at: u32, form: LineForm<'a>) -> Result<(), ScriptRefusal>
        ensures { KeepsAt at result self.new (keep_form at (line_form form.entry) self.old) }
    {
        match form {
            LineForm::Skipped => Ok(()),
            LineForm::Header(form) => {
                if !self.events.is_empty() {
                    return Err(refusal(at, ScriptWhy::Order));
                }
                self.keep_header(at, form)
            }
            LineForm::Event(form) => self.keep_event(at, form),
        }
    }

    /// Keeps what the line at the offset says. After an error the draft is of no use.
    #[tactic(auto, unfolding(crate::specs::KeptSteps::keep_line, crate::specs::KeptSteps::if_short, crate::specs::KeptSteps::or_fault))]
    pub fn keep_line(&mut self, at: u32, line: &'a [u8]) -> Result<(), ScriptRefusal>
        ensures { KeepsAt at result self.new (keep_line at line.now self.old) }
    {
        let Some(form) = read_line(line) else {
            return Err(refusal(at, ScriptWhy::BadLine));
        };
        self.keep_form(at, form)?;
        if line.len() > MAX_LINE {
            return Err(refusal(at, ScriptWhy::TooMany));
        }
        Ok(())
    }

    /// The script, if no header is missing in a text of this length.
    #[tactic(auto, unfolding(crate::specs::KeptSteps::script_from))]
    pub fn finish(self, len: u32) -> Result<ScriptLines<'a>, ScriptFault>
        ensures { Finishes result (script_from len self.entry) }
    {
        let (Some(client), Some(interface), Some(object)) = (
            self.client,
            self.interface,
            self.object,
        ) else {
            return Err(ScriptFault {
                at: len,
                why: ScriptWhy::Missing,
            });
        };
        Ok(ScriptLines {
            client,
            server: self.server,
            interface,
            object,
            rules: self.rules,
            queue: self.queue,
            events: self.events,
        })
    }
}

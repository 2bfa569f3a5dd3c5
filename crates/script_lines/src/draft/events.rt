//! What is kept of events.

ghost use Rattle.script_lines.specs.ViewSteps.{event_form};
ghost use Rattle.script_lines.specs.AnswerSteps.{KeepsAt};
ghost use Rattle.script_lines.specs.KeptSteps.{add_event, keep_event};
ghost use Rattle.script_lines.specs.Views.{event_of};

use crate::draft::Draft;
use crate::event::{EventLine, EventWords, names_node};
use crate::fault::{ScriptRefusal, ScriptWhy, refusal};
use crate::forms::EventForm;
use crate::limits::MAX_CALLS;

impl<'a> Draft<'a> {
    #[tactic(auto, unfolding(crate::specs::KeptSteps::add_event))]
    fn add_event(&mut self, at: u32, event: EventWords<'a>) -> Result<(), ScriptRefusal>
        ensures { KeepsAt at result self.new (add_event at (event_of event.entry) self.old) }
    {
        if event.is_call() {
            if self.calls >= MAX_CALLS {
                return Err(refusal(at, ScriptWhy::TooMany));
            }
            self.calls += 1;
        }
        self.events.push(EventLine { at, event })?;
        Ok(())
    }

    #[tactic(auto, unfolding(crate::specs::KeptSteps::keep_event, crate::specs::KeptSteps::or_fault))]
    pub(crate) fn keep_event(&mut self, at: u32, form: EventForm<'a>) -> Result<(), ScriptRefusal>
        ensures { KeepsAt at result self.new (keep_event at (event_form form.entry) self.old) }
    {
        if names_node(&form) && self.object.is_none() {
            return Err(refusal(at, ScriptWhy::BadNumber));
        }
        let Some(event) = EventWords::read(form) else {
            return Err(refusal(at, ScriptWhy::BadNumber));
        };
        self.add_event(at, event)
    }
}

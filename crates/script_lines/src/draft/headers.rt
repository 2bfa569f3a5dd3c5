//! What is kept of headers.

ghost use Rattle.script_lines.specs.ViewSteps.{header_form, rule_form};
ghost use Rattle.script_lines.specs.AnswerSteps.{KeepsAt};
ghost use Rattle.script_lines.specs.KeptSteps.{keep_client, keep_server, keep_interface, keep_object, keep_rule, keep_queue, keep_header};
ghost use Rattle.script_lines.specs.Views.{interface_line};

use crate::draft::Draft;
use crate::fault::{ScriptRefusal, ScriptWhy, refusal};
use crate::forms::{HeaderForm, RuleForm};
use crate::interface::InterfaceLine;
use crate::object::ObjectWords;
use crate::queue::QueueWords;
use crate::rule::{RuleLine, RuleWords};

impl<'a> Draft<'a> {
    #[tactic(auto, unfolding(crate::specs::KeptSteps::keep_client))]
    fn keep_client(&mut self, at: u32, file: &'a str) -> Result<(), ScriptRefusal>
        ensures { KeepsAt at result self.new (keep_client file.now self.old) }
    {
        if self.client.is_some() {
            return Err(refusal(at, ScriptWhy::Twice));
        }
        self.client = Some(file);
        Ok(())
    }

    #[tactic(auto, unfolding(crate::specs::KeptSteps::keep_server))]
    fn keep_server(&mut self, at: u32, file: &'a str) -> Result<(), ScriptRefusal>
        ensures { KeepsAt at result self.new (keep_server file.now self.old) }
    {
        if self.server.is_some() {
            return Err(refusal(at, ScriptWhy::Twice));
        }
        self.server = Some(file);
        Ok(())
    }

    #[tactic(auto, unfolding(crate::specs::KeptSteps::keep_interface))]
    fn keep_interface(
        &mut self,
        at: u32,
        module: &'a [u8],
        name: &'a [u8],
    ) -> Result<(), ScriptRefusal>
        ensures { KeepsAt at result self.new (keep_interface (record { at = at; home = «module».now; name = name.now }) self.old) }
    {
        if self.interface.is_some() {
            return Err(refusal(at, ScriptWhy::Twice));
        }
        self.interface = Some(InterfaceLine { at, module, name });
        Ok(())
    }

    #[tactic(auto, unfolding(crate::specs::KeptSteps::keep_object, crate::specs::KeptSteps::or_fault))]
    fn keep_object(&mut self, at: u32, text: &'a [u8]) -> Result<(), ScriptRefusal>
        ensures { KeepsAt at result self.new (keep_object text.now self.old) }
    {
        if self.object.is_some() {
            return Err(refusal(at, ScriptWhy::Twice));
        }
        let Some(object) = ObjectWords::read(text) else {
            return Err(refusal(at, ScriptWhy::BadObject));
        };
        self.object = Some(object);
        Ok(())
    }

    #[tactic(auto, unfolding(crate::specs::KeptSteps::keep_rule, crate::specs::KeptSteps::or_fault))]
    fn keep_rule(
        &mut self,
        at: u32,
        func: &'a [u8],
        rule: RuleForm<'a>,
    ) -> Result<(), ScriptRefusal>
        ensures { KeepsAt at result self.new (keep_rule at func.now (rule_form rule.entry) self.old) }
    {
        if !self.funcs.insert(func)? {
            return Err(refusal(at, ScriptWhy::Twice));
        }
        let Some(rule) = RuleWords::read(rule) else {
            return Err(refusal(at, ScriptWhy::BadNumber));
        };
        self.rules.push(RuleLine { at, func, rule })?;
        Ok(())
    }

    #[tactic(auto, unfolding(crate::specs::KeptSteps::keep_queue, crate::specs::KeptSteps::or_fault))]
    fn keep_queue(
        &mut self,
        at: u32,
        capacity: &'a [u8],
        timeout: &'a [u8],
    ) -> Result<(), ScriptRefusal>
        ensures { KeepsAt at result self.new (keep_queue capacity.now timeout.now self.old) }
    {
        if self.queue.is_some() {
            return Err(refusal(at, ScriptWhy::Twice));
        }
        let Some(queue) = QueueWords::read(capacity, timeout) else {
            return Err(refusal(at, ScriptWhy::BadNumber));
        };
        self.queue = Some(queue);
        Ok(())
    }

    #[tactic(auto, unfolding(crate::specs::KeptSteps::keep_header))]
    pub(crate) fn keep_header(&mut self, at: u32, form: HeaderForm<'a>) -> Result<(), ScriptRefusal>
        ensures { KeepsAt at result self.new (keep_header at (header_form form.entry) self.old) }
    {
        match form {
            HeaderForm::Client(file) => self.keep_client(at, file),
            HeaderForm::Server(file) => self.keep_server(at, file),
            HeaderForm::Interface { module, name } => self.keep_interface(at, module, name),
            HeaderForm::Object(text) => self.keep_object(at, text),
            HeaderForm::Servant { func, rule } => self.keep_rule(at, func, rule),
            HeaderForm::Queue { capacity, timeout } => self.keep_queue(at, capacity, timeout),
        }
    }
}

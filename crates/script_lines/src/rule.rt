ghost use Rattle.script_lines.specs.Meanings.{rule_meant};
ghost use Rattle.script_lines.specs.ViewSteps.{rule_form};
ghost use Rattle.script_lines.specs.ScanSteps.{Gives};
ghost use Rattle.script_lines.specs.Views.{rule_of};

use crate::forms::RuleForm;
use crate::numbers::code_of;

/// What a servant returns.
#[derive(Clone, Copy)]
pub enum RuleWords<'a> {
    /// The value of this text.
    Value(&'a [u8]),
    /// The parameter of this name.
    Echo(&'a [u8]),
    /// The sum of two parameters.
    Add(&'a [u8], &'a [u8]),
    /// A return code, which is not 0.
    Code(i32),
    /// Nothing.
    Silent,
}

impl<'a> RuleWords<'a> {
    /// What the words mean, if a code is in range.
    #[tactic(auto, unfolding(crate::specs::Meanings::rule_meant))]
    pub(crate) fn read(form: RuleForm<'a>) -> Option<RuleWords<'a>>
        ensures { Gives rule_of result (rule_meant (rule_form form.entry)) }
    {
        match form {
            RuleForm::Value(text) => Some(RuleWords::Value(text)),
            RuleForm::Echo(name) => Some(RuleWords::Echo(name)),
            RuleForm::Add(left, right) => Some(RuleWords::Add(left, right)),
            RuleForm::Code(text) => Some(RuleWords::Code(code_of(text)?)),
            RuleForm::Silent => Some(RuleWords::Silent),
        }
    }
}

/// A function's rule.
#[derive(Clone, Copy)]
pub struct RuleLine<'a> {
    /// The offset of the line in the text.
    pub at: u32,
    pub func: &'a [u8],
    pub rule: RuleWords<'a>,
}

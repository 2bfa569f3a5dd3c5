//! The rules of servants, by their words.

ghost use Rattle.script_lines.specs.FormSteps.{code_at, silent_at, rule_by};
ghost use Rattle.script_lines.specs.ViewSteps.{rule_form};
ghost use Rattle.script_lines.specs.ScanSteps.{Gives};

use crate::numbers::is_number;
use crate::scan::{only_word, something, two_words};

/// What a servant does. The value and the code are texts.
#[derive(Clone, Copy)]
pub enum RuleForm<'a> {
    Value(&'a [u8]),
    Echo(&'a [u8]),
    Add(&'a [u8], &'a [u8]),
    Code(&'a [u8]),
    Silent,
}

#[tactic(auto, unfolding(crate::specs::FormSteps::code_at))]
fn read_code(rest: &[u8]) -> Option<RuleForm<'_>>
    ensures { Gives rule_form result (code_at rest.now) }
{
    let number = only_word(rest)?;
    if !is_number(number) {
        return None;
    }
    Some(RuleForm::Code(number))
}

#[tactic(auto, unfolding(crate::specs::FormSteps::silent_at))]
fn read_silent(rest: &[u8]) -> Option<RuleForm<'_>>
    ensures { Gives rule_form result (silent_at rest.now) }
{
    if !rest.is_empty() {
        return None;
    }
    Some(RuleForm::Silent)
}

/// What the word of a rule and the rest of the line say.
#[tactic(auto, unfolding(crate::specs::FormSteps::rule_by))]
pub fn read_rule<'a>(word: &[u8], rest: &'a [u8]) -> Option<RuleForm<'a>>
    ensures { Gives rule_form result (rule_by word.now rest.now) }
{
    if word == b"value".as_slice() {
        Some(RuleForm::Value(something(rest)?))
    } else if word == b"echo".as_slice() {
        Some(RuleForm::Echo(only_word(rest)?))
    } else if word == b"add".as_slice() {
        let (left, right) = two_words(rest)?;
        Some(RuleForm::Add(left, right))
    } else if word == b"code".as_slice() {
        read_code(rest)
    } else if word == b"silent".as_slice() {
        read_silent(rest)
    } else {
        None
    }
}

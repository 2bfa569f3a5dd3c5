//! The rules of a script, over the server's interface.

ghost use Rattle.std.specs.Prelude.{◌≡◌, map, IfOk, IfErr};
ghost use Rattle.std.specs.List.{All};
ghost use Rattle.script_lines.specs.Views.{rule_line};
ghost use Rattle.script_lines.specs.declared.rule.RuleLine.{RuleLine as Written};
ghost use Rattle.script_load.specs.LineFaults.{HasRuleFault};
ghost use Rattle.script_load.specs.LineSteps.{OnFault, AreTheFuncs, FitsRule, HaveRuleFault};
ghost use Rattle.script_load.specs.Sessions.{IsRuleOf, AreRules};
ghost use Rattle.script_rules.specs.Rules.{IsJudged};

use crate::faults::{LineFault, LineRefusal, LineWhy};
use script_lines::RuleLine;
use script_rules::{function_of, read_rule};
use script_session::FuncRule;
use std::alloc::Global;
use tars_model::{FuncDesc, List, Schema};

/// The rule that a line says.
fn rule_of(
    alloc: Global,
    schema: &Schema,
    funcs: &[FuncDesc],
    line: &RuleLine<'_>,
) -> Result<FuncRule, LineRefusal>
    requires funcs { AreTheFuncs funcs.now }
    requires judged { IsJudged (rule_line line.now).rule }
    ensures means { IfOk result (λ rule. IsRuleOf schema.now funcs.now (rule_line line.now) rule) }
    ensures fits { IfOk result (λ rule. FitsRule schema.now funcs.now rule) }
    ensures fault { IfErr result (λ refusal. OnFault refusal
        (λ fault. (fault.at ≡ line.now.at) × HasRuleFault schema.now funcs.now (rule_line line.now) fault.why)) }
{
    let Some(func) = function_of(funcs, line.func) else {
        return Err(LineRefusal::Fault(LineFault {
            at: line.at,
            why: LineWhy::UnknownName,
        }));
    };
    match read_rule(alloc, schema, &funcs[func as usize], &line.rule) {
        Ok(rule) => Ok(FuncRule { func, rule }),
        Err(fault) => Err(LineRefusal::of_rule(line.at, fault)),
    }
}

/// The rules that the lines say, or the fault of the first that says none.
pub fn rules_of(
    alloc: Global,
    schema: &Schema,
    funcs: &[FuncDesc],
    lines: &[RuleLine<'_>],
) -> Result<List<FuncRule>, LineRefusal>
    requires funcs { AreTheFuncs funcs.now }
    requires judged { All (λ (line : Written). IsJudged (rule_line line).rule) lines.now }
    ensures means { IfOk result (λ rules. AreRules schema.now funcs.now (map rule_line lines.now) rules) }
    ensures fits { IfOk result (λ rules. All (FitsRule schema.now funcs.now) rules) }
    ensures fault { IfErr result (λ refusal. OnFault refusal (HaveRuleFault schema.now funcs.now (map rule_line lines.now))) }
{
    let mut rules = List::new(alloc);
    for line in lines {
        let rule = rule_of(alloc, schema, funcs, line)?;
        rules.push(rule)?;
    }
    Ok(rules)
}

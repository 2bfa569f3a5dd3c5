//! The rules of functions.

ghost use Rattle.std.specs.Prelude.{◌≡◌, ◌≤◌, length, true, IfOk, IfErr};
ghost use Rattle.script_lines.specs.TextLimits.{MAX_LINE};
ghost use Rattle.script_lines.specs.Views.{rule_of};
ghost use Rattle.script_rules.specs.Functions.{AreParams};
ghost use Rattle.script_rules.specs.Outcomes.{Gives, Refuses, OnFault};
ghost use Rattle.script_rules.specs.Rules.{SaysReturned, MeansRule, RuleFaultOf, IsJudged};
ghost use Rattle.script_rules.specs.declared.rule_fault.RuleFault.{RuleFault as Fault};
ghost use Rattle.script_rules.specs.declared.rule_fault.RuleFault.TheVariants.{BadValue as is_bad};
ghost use Rattle.servant_core.specs.Rules.{Returns, IsRuleOf};
ghost use Rattle.servant_core.specs.declared.rules.Rule.{Rule as Made};
ghost use Rattle.servant_core.specs.declared.rules.Rule.TheVariants.{Value as is_value};
ghost use Rattle.tars_model.specs.Values.{fits};
ghost use Rattle.tars_model.specs.declared.value.Value.{Value as Said};
ghost use Rattle.value_text.specs.Printed.{has_bytes};

use crate::RuleFault;
use crate::params::{added, echoed};
use script_lines::RuleWords;
use servant_core::Rule;
use std::alloc::Global;
use tars_model::{FuncDesc, Schema, Value};
use value_text::read_whole;

/// The value of the type that is returned, as a text says it.
fn returned(
    alloc: Global,
    schema: &Schema,
    func: &FuncDesc,
    text: &[u8],
) -> Result<Value, RuleFault>
    requires { length text.now ≤ MAX_LINE }
    ensures says { IfOk result (λ value. SaysReturned schema.now func.now text.now value) }
    ensures fits { IfOk result (λ value. Returns func.now.ret (λ t. fits schema.now t value ≡ true)) }
    ensures bytes { IfOk result (λ value. has_bytes value ≡ true) }
    ensures only { (value : Said) → SaysReturned schema.now func.now text.now value → Gives result value }
    ensures bad { IfErr result (λ fault. OnFault fault (λ why. why ≡ is_bad)) }
{
    let Some(ty) = &func.ret else {
        return Err(RuleFault::BadValue);
    };
    Ok(read_whole(alloc, schema, ty, text)?)
}

/// The rule of a function that the words of a script mean.
#[tactic(auto, using(crate::proofs::RuleLaws::echo_fits, crate::proofs::RuleLaws::add_fits))]
pub fn read_rule(
    alloc: Global,
    schema: &Schema,
    func: &FuncDesc,
    words: &RuleWords<'_>,
) -> Result<Rule, RuleFault>
    requires params { AreParams func.now.params }
    requires judged { IsJudged (rule_of words.now) }
    // The words mean what is returned, and it fits the function.
    ensures means { IfOk result (λ rule. MeansRule schema.now func.now (rule_of words.now) rule) }
    ensures fits { IfOk result (λ rule. IsRuleOf schema.now func.now rule) }
    // The texts of a value are bytes.
    ensures bytes { IfOk result (λ rule. (value : Said) → rule ≡ is_value value → has_bytes value ≡ true) }
    // Whatever words mean is returned, unless memory runs out.
    ensures only { (rule : Made) → MeansRule schema.now func.now (rule_of words.now) rule → Gives result rule }
    // A fault is that of the words, and it is returned, unless memory runs out.
    ensures fault { IfErr result (λ fault. OnFault fault (RuleFaultOf schema.now func.now (rule_of words.now))) }
    ensures refused { (why : Fault) → RuleFaultOf schema.now func.now (rule_of words.now) why → Refuses result why }
{
    match words {
        RuleWords::Value(text) => Ok(Rule::Value(returned(alloc, schema, func, text)?)),
        RuleWords::Echo(name) => {
            let Some(place) = echoed(func, name) else {
                return Err(RuleFault::UnknownName);
            };
            Ok(Rule::Echo(place))
        }
        RuleWords::Add(left, right) => {
            let Some((first, second)) = added(func, left, right) else {
                return Err(RuleFault::UnknownName);
            };
            Ok(Rule::Add(first, second))
        }
        RuleWords::Code(number) => Ok(Rule::Code(*number)),
        RuleWords::Silent => Ok(Rule::Silent),
    }
}

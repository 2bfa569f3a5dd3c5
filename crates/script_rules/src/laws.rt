//! What holds of every rule, and of every schema and script.

ghost use Rattle.std.specs.Prelude.{◌≡◌, ◌⊎◌, ℕ, Some as is_there, List as Listed, slice_get};
ghost use Rattle.std.specs.List.{All};
ghost use Rattle.script_lines.specs.Meanings as says;
ghost use Rattle.script_lines.specs.Scripts.{Script, IsScript, RuleLine, EventLine};
ghost use Rattle.script_rules.specs.Functions.{AreFuncs, AreParams};
ghost use Rattle.script_rules.specs.Rules.{MeansRule, RuleFaultOf, IsJudged, IsJudgedEvent};
ghost use Rattle.script_rules.specs.declared.rule_fault.RuleFault.{RuleFault as Fault};
ghost use Rattle.servant_core.specs.Functions.{functions_of};
ghost use Rattle.servant_core.specs.declared.rules.Rule.{Rule as Made};
ghost use Rattle.tars_model.specs.Declarations.{Declared};
ghost use Rattle.tars_model.specs.Schemas.{IsSchema};
ghost use Rattle.tars_model.specs.declared.func_desc.FuncDesc.{FuncDesc as Func};

use value_text::{one_fault, one_value};

/// The words of a rule mean one rule of a function or have one fault, and not both.
pub fn one_rule()
    ensures some { (d : Declared) (func : Func) (words : says.Rule) → IsSchema d
        → ((made : Made) × MeansRule d func words made) ⊎ ((why : Fault) × RuleFaultOf d func words why) }
    ensures rule { (d : Declared) (func : Func) (words : says.Rule) (a b : Made) → AreParams func.params → MeansRule d func words a
        → MeansRule d func words b → a ≡ b }
    ensures fault { (d : Declared) (func : Func) (words : says.Rule) (a b : Fault) → RuleFaultOf d func words a
        → RuleFaultOf d func words b → a ≡ b }
    ensures not_both { (d : Declared) (func : Func) (words : says.Rule) (made : Made) (why : Fault) → MeansRule d func words made
        → ¬ (RuleFaultOf d func words why) }
{
    one_value();
    one_fault();
}

/// The functions of a schema's interfaces and the lines of a script are as `function_of`, `read_rule` and `read_call` require.
pub fn lines_are_judged()
    ensures funcs { (d : Declared) (interface : ℕ) → IsSchema d → AreFuncs (functions_of d interface) }
    ensures params { (d : Declared) (interface k : ℕ) (func : Func) → IsSchema d
        → slice_get (functions_of d interface) k ≡ is_there func → AreParams func.params }
    ensures rules { (text : Listed ℕ) (s : Script) → IsScript text s → All (λ (line : RuleLine). IsJudged line.rule) s.rules }
    ensures events { (text : Listed ℕ) (s : Script) → IsScript text s → All (λ (line : EventLine). IsJudgedEvent line.event) s.events }
{}

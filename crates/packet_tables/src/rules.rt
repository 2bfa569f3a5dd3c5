//! The rules of a row's table.

ghost use Rattle.std.specs.Prelude.{◌≡◌, ◌<◌, length, IfOk, IfSome};
ghost use Rattle.packet_tables.specs.Servants.{SuitsAt, IsRuleFor, IsTableOver};
ghost use Rattle.script_lines.specs.Views.{rule_of as rule_said};
ghost use Rattle.script_rules.specs.Rules.{IsJudged};

use crate::interfaces::{func_at, funcs_of};
use row_pages::{Page, split_word};
use script_lines::RuleWords;
use script_rules::{RuleFault, function_of, lines_are_judged, read_rule};
use servant_core::{Rule, Servant, TableServant};
use std::alloc::{AllocError, Global};
use tars_model::Schema;

/// The most bytes of a line.
const MAX_LINE: usize = 4_096;

fn value_words(text: &str) -> Option<RuleWords<'_>>
    ensures { IfSome result (λ words. IsJudged (rule_said words)) }
{
    if text.len() > MAX_LINE {
        return None;
    }
    Some(RuleWords::Value(text.as_bytes()))
}

fn code_words(text: &str) -> Option<RuleWords<'_>>
    ensures { IfSome result (λ words. IsJudged (rule_said words)) }
{
    match text.parse::<i32>() {
        Ok(code) if code != 0 => Some(RuleWords::Code(code)),
        _ => None,
    }
}

/// `value TEXT`, `echo NAME`, `add NAME NAME`, `code NUMBER` or `silent`.
fn words_of(text: &str) -> Option<RuleWords<'_>>
    ensures { IfSome result (λ words. IsJudged (rule_said words)) }
{
    let (kind, rest) = split_word(text);
    match kind {
        "value" => value_words(rest),
        "echo" => Some(RuleWords::Echo(rest.as_bytes())),
        "add" => {
            let (left, right) = split_word(rest);
            Some(RuleWords::Add(left.as_bytes(), right.as_bytes()))
        }
        "code" => code_words(rest),
        "silent" => Some(RuleWords::Silent),
        _ => None,
    }
}

/// `FUNC RULE`: the number of a function and its rule, if it may have it.
#[tactic(auto, using(crate::proofs::FuncRules::rule_for))]
fn rule_of(
    alloc: Global,
    schema: &Schema,
    interface: u32,
    text: &str,
) -> Result<Option<(u32, Rule)>, AllocError>
    requires { interface < length schema.now.interfaces }
    ensures { IfOk result (λ found. IfSome found (λ x. IsRuleFor schema.now interface x.0 x.1)) }
{
    let _order = schema.order();
    lines_are_judged();
    let (name, rule) = split_word(text);
    let Some(number) = function_of(funcs_of(schema, interface), name.as_bytes()) else {
        return Ok(None);
    };
    let Some(func) = func_at(schema, interface, number) else {
        return Ok(None);
    };
    let Some(words) = words_of(rule) else {
        return Ok(None);
    };
    match read_rule(alloc, schema, func, &words) {
        Ok(rule) => Ok(Some((number, rule))),
        Err(RuleFault::Memory) => Err(AllocError),
        Err(_) => Ok(None),
    }
}

/// Sets the rule that a text says, unless it is `-`. Where it says none, that is added.
fn set_rule(
    page: &mut Page,
    schema: &Schema,
    interface: u32,
    table: &mut TableServant,
    text: &str,
) -> Result<(), AllocError>
    requires interface { interface < length schema.now.interfaces }
    requires table { IsTableOver schema.now interface table.old }
    ensures { IsTableOver schema.now interface table.new }
{
    if text == "-" {
        return Ok(());
    }
    match rule_of(page.alloc(), schema, interface, text)? {
        Some((func, rule)) => table.set(func, rule),
        None => page.add("no rule; "),
    }
    Ok(())
}

/// Sets the rules `FUNC RULE; FUNC RULE`.
fn set_rules(
    page: &mut Page,
    schema: &Schema,
    interface: u32,
    table: &mut TableServant,
    rules: &str,
) -> Result<(), AllocError>
    requires interface { interface < length schema.now.interfaces }
    requires table { IsTableOver schema.now interface table.old }
    ensures { IsTableOver schema.now interface table.new }
{
    for rule in rules.split("; ") {
        set_rule(page, schema, interface, table, rule)?;
    }
    Ok(())
}

/// A table without rules.
fn bare_table(alloc: Global, schema: &Schema, interface: u32) -> Result<TableServant, AllocError>
    requires { interface < length schema.now.interfaces }
    ensures { IfOk result (λ table. IsTableOver schema.now interface table) }
{
    let copy = schema.copy(alloc)?;
    TableServant::new(alloc, copy, interface)
}

/// A table with rules, `FUNC RULE; FUNC RULE` or `-`.
#[tactic(auto, using(crate::proofs::FuncRules::suits_over))]
pub fn table_of(
    page: &mut Page,
    schema: &Schema,
    interface: u32,
    rules: &str,
) -> Result<TableServant, AllocError>
    requires { interface < length schema.now.interfaces }
    ensures { IfOk result (λ table. SuitsAt schema.now interface (⟦<TableServant as Servant>⟧.meaning table)) }
{
    let mut table = bare_table(page.alloc(), schema, interface)?;
    set_rules(page, schema, interface, &mut table, rules)?;
    table.suits();
    Ok(table)
}

ghost use Rattle.std.specs.Prelude.{◌≡◌, ◌<◌, None, [], length, replicate, IfOk, OnOk, OnErr};
ghost use Rattle.servant_core.specs.Functions.{functions_of};
ghost use Rattle.servant_core.specs.Rules.{table_reply};
ghost use Rattle.servant_core.specs.Servants.{Always, IsNext, IsSuited};
ghost use Rattle.servant_core.specs.Tables.{IsRuleAt, functions, new_table, with_rule, counted};

use crate::funcs::funcs_of;
use crate::replying::{UNKNOWN, reply_by};
use crate::{Reply, Rule, Servant};
use std::alloc::{AllocError, Global};
use std::marker::Model;
use tars_model::{FuncDesc, Schema, Value};

/// A servant that replies by one rule a function, and by the defaults of its types where it has none. It counts the calls that it
/// handled, up to 2^64 - 1.
#[derive(Drop)]
pub struct TableServant {
    schema: Schema,
    /// The number of the interface in the schema.
    interface: u32,
    /// By the functions' numbers.
    rules: Vec<Option<Rule>>,
    handled: u64,
}

impl Model for TableServant {
    ghost use Rattle.std.specs.Coded.{codes};
    ghost use Rattle.servant_core.specs.Tables.{Table, IsTable};
    ghost use Rattle.tars_model.specs.contracts.ty.Ty as ty;
    ghost use Rattle.tars_model.specs.contracts.value.Value as value;

    ghost Value = { Table };

    ghost coded = { Prim.hlevel (codes, ty.the_row.coded, value.the_row.coded) };

    ghost view = { λ t. record { schema = t.schema; interface = t.interface; rules = t.rules.items; handled = t.handled } };

    ghost invariant = { λ t. IsTable (record { schema = t.schema; interface = t.interface; rules = t.rules.items; handled = t.handled }) };
}

/// A place for the rule of each of so many functions.
fn no_rules(alloc: Global, count: usize) -> Result<Vec<Option<Rule>>, AllocError>
    ensures { IfOk result (λ rules. rules.items ≡ replicate count None) }
{
    let mut rules = Vec::new(alloc);
    for _ in 0..count {
        rules.push(None)?;
    }
    Ok(rules)
}

impl TableServant {
    /// A servant of the interface of this number, without rules.
    pub fn new(alloc: Global, schema: Schema, interface: u32) -> Result<TableServant, AllocError>
        requires { interface < length schema.interfaces }
        ensures made { IfOk result (λ table. table ≡ new_table schema interface) }
        ensures always { IfOk result (λ table. Always (IsSuited schema (functions_of schema interface)) (⟦<TableServant as Servant>⟧.meaning table)) }
    {
        let count = funcs_of(&schema, interface).len();
        let rules = no_rules(alloc, count)?;
        let table = TableServant {
            schema,
            interface,
            rules,
            handled: 0,
        };
        table.suits();
        Ok(table)
    }

    /// Sets the rule of the function of this number, in the place of an earlier one.
    pub fn set(&mut self, func: u32, rule: Rule)
        requires function { func < length (functions self.old) }
        requires fits { IsRuleAt self.old func rule }
        ensures set { self.new ≡ with_rule self.old func rule }
        ensures always { Always (IsSuited self.new.schema (functions self.new)) (⟦<TableServant as Servant>⟧.meaning self.new) }
    {
        self.rules[func as usize] = Some(rule);
        self.suits();
    }

    /// Whatever it handled before, its replies fit the calls of its interface.
    pub fn suits(&self)
        ensures { Always (IsSuited self.now.schema (functions self.now)) (⟦<TableServant as Servant>⟧.meaning self.now) }
    {
        let _handled = self.handled;
    }

    /// How many calls it handled, or 2^64 - 1 where they were more.
    pub fn handled(&self) -> u64
        ensures { result ≡ self.now.handled }
    {
        self.handled
    }

    /// The functions of the interface.
    fn funcs(&self) -> &[FuncDesc]
        ensures { result.now ≡ functions self.now }
    {
        funcs_of(&self.schema, self.interface)
    }

    /// The reply to a call, by the rule of its function.
    fn reply_to(
        &self,
        alloc: Global,
        func: u32,
        args: &[Value],
        now: u32,
    ) -> Result<Reply, AllocError>
        ensures { IfOk result (λ reply. reply ≡ table_reply self.now.schema (functions self.now) self.now.rules record { func = func; args = args.now; moment = now }) }
    {
        let Some(desc) = self.funcs().get(func as usize) else {
            return Ok(Reply::Code(UNKNOWN));
        };
        reply_by(alloc, &self.schema, desc, &self.rules[func as usize], args)
    }
}

impl Servant for TableServant {
    ghost meaning = { λ t earlier last. table_reply t.schema (functions t) t.rules last };

    fn reply(
        &mut self,
        alloc: Global,
        func: u32,
        args: &[Value],
        now: u32,
    ) -> Result<Reply, AllocError>
        ensures reply { IfOk result (λ reply. reply ≡ ⟦<TableServant as Servant>⟧.meaning self.old [] record { func = func; args = args.now; moment = now }) }
        ensures next { OnOk result (IsNext (⟦<TableServant as Servant>⟧.meaning self.old) record { func = func; args = args.now; moment = now } (⟦<TableServant as Servant>⟧.meaning self.new)) }
        // It counts the calls that it replies to, and nothing else of it changes.
        ensures counted { OnOk result (self.new ≡ counted self.old) }
        ensures kept { OnErr result (self.new ≡ self.old) }
    {
        let reply = self.reply_to(alloc, func, args, now)?;
        self.handled = self.handled.saturating_add(1);
        Ok(reply)
    }
}

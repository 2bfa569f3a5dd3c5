ghost use Rattle.std.specs.Prelude.{◌≡◌};
ghost use Rattle.idl_parse.specs.Grammar.{nesting_limit};
ghost use Rattle.idl_parse.specs.ReadSteps.{Reads, param_at, param_after_at, first_params_at, params_at, ret_at, func_at, ended_at, funcs_at};

use super::halt::Halt;
use super::items::{Item, until, until_after};
use super::tokens::Tokens;
use super::types::{MAX_NESTING, type_tree, typed};
use crate::tree::{FuncTree, ParamTree, TypeTree};
use idl_lex::{Keyword, Kind, Sign};
use std::alloc::Global;
use tars_model::List;

/// `[ routekey ] [ out ] type ident`
#[tactic(auto, unfolding(crate::specs::ReadSteps::param_at))]
fn param(alloc: Global, tokens: &mut Tokens<'_>) -> Result<ParamTree, Halt>
    ensures { Reads result tokens.new (param_at nesting_limit tokens.old) }
{
    let routekey = tokens.next_if(Kind::Keyword(Keyword::Routekey));
    let out = tokens.eat(Kind::Keyword(Keyword::Out));
    let typed = typed(alloc, tokens)?;
    let routekey = routekey.map(|token| token.start);
    Ok(ParamTree {
        routekey,
        out,
        typed,
    })
}

impl Item for ParamTree {
    ghost reading = { param_after_at nesting_limit };

    /// `, param`
    #[tactic(auto, unfolding(crate::specs::ReadSteps::param_after_at))]
    fn read(alloc: Global, tokens: &mut Tokens<'_>) -> Result<ParamTree, Halt> {
        tokens.expect(Kind::Sign(Sign::Comma))?;
        param(alloc, tokens)
    }
}

/// `param { , param } )`
#[tactic(auto, using(crate::proofs::Parsing::Repeating::Turns::param_turn), unfolding(crate::specs::ReadSteps::first_params_at, crate::specs::ReadSteps::more_params_at))]
fn first_params(alloc: Global, tokens: &mut Tokens<'_>) -> Result<List<ParamTree>, Halt>
    ensures { Reads result tokens.new (first_params_at nesting_limit tokens.old) }
{
    let first = param(alloc, tokens)?;
    let mut params = List::new(alloc);
    params.push(first)?;
    until_after(alloc, Sign::CloseParen, params, tokens)
}

/// `[ param { , param } ] )`
#[tactic(auto, unfolding(crate::specs::ReadSteps::params_at, crate::specs::ReadSteps::no_params_at))]
fn params(alloc: Global, tokens: &mut Tokens<'_>) -> Result<List<ParamTree>, Halt>
    ensures { Reads result tokens.new (params_at nesting_limit tokens.old) }
{
    if tokens.eat(Kind::Sign(Sign::CloseParen)) {
        return Ok(List::new(alloc));
    }
    first_params(alloc, tokens)
}

/// `void | type`
#[tactic(auto, unfolding(crate::specs::ReadSteps::ret_at, crate::specs::ReadSteps::void_at, crate::specs::ReadSteps::some_type_at))]
fn ret(alloc: Global, tokens: &mut Tokens<'_>) -> Result<Option<TypeTree>, Halt>
    ensures { Reads result tokens.new (ret_at nesting_limit tokens.old) }
{
    if tokens.eat(Kind::Keyword(Keyword::Void)) {
        return Ok(None);
    }
    Ok(Some(type_tree(alloc, MAX_NESTING, tokens)?))
}

/// `( void | type ) ident ( [ param { , param } ] )`
#[tactic(auto, unfolding(crate::specs::ReadSteps::func_at))]
fn func(alloc: Global, tokens: &mut Tokens<'_>) -> Result<FuncTree, Halt>
    ensures { Reads result tokens.new (func_at nesting_limit tokens.old) }
{
    let ret = ret(alloc, tokens)?;
    let name = tokens.span(Kind::Ident)?;
    tokens.expect(Kind::Sign(Sign::OpenParen))?;
    let params = params(alloc, tokens)?;
    Ok(FuncTree { ret, name, params })
}

impl Item for FuncTree {
    ghost reading = { ended_at (func_at nesting_limit) };

    /// `func ;`
    fn read(alloc: Global, tokens: &mut Tokens<'_>) -> Result<FuncTree, Halt> {
        let func = func(alloc, tokens)?;
        tokens.expect(Kind::Sign(Sign::Semicolon))?;
        Ok(func)
    }
}

/// `{ func ; } }`
#[tactic(auto, using(crate::proofs::Parsing::Repeating::Turns::func_turn), unfolding(crate::specs::ReadSteps::funcs_at))]
pub(super) fn funcs(alloc: Global, tokens: &mut Tokens<'_>) -> Result<List<FuncTree>, Halt>
    ensures { Reads result tokens.new (funcs_at nesting_limit tokens.old) }
{
    until(alloc, Sign::CloseBrace, tokens)
}

ghost use Rattle.std.specs.Prelude.{◌≡◌};
ghost use Rattle.idl_parse.specs.Grammar.{nesting_limit};
ghost use Rattle.idl_parse.specs.ReadSteps.{Reads, ReadsAll, module_at, entry_at, file_at};

use super::decls::{decls, heading};
use super::halt::Halt;
use super::tokens::Tokens;
use crate::tree::{Entry, ModuleTree};
use idl_lex::{Keyword, Kind, Sign};
use std::alloc::Global;
use tars_model::List;

/// `module ident { { decl ; } } ;`
#[tactic(auto, unfolding(crate::specs::ReadSteps::module_at))]
fn module_entry(alloc: Global, tokens: &mut Tokens<'_>) -> Result<Entry, Halt>
    ensures { Reads result tokens.new (module_at nesting_limit tokens.old) }
{
    let name = heading(Keyword::Module, tokens)?;
    let decls = decls(alloc, tokens)?;
    tokens.expect(Kind::Sign(Sign::Semicolon))?;
    Ok(Entry::Module(ModuleTree { name, decls }))
}

/// `#include text | module`
#[tactic(auto, unfolding(crate::specs::ReadSteps::entry_at, crate::specs::ReadSteps::include_at))]
fn entry(alloc: Global, tokens: &mut Tokens<'_>) -> Result<Entry, Halt>
    ensures { Reads result tokens.new (entry_at nesting_limit tokens.old) }
{
    if tokens.eat(Kind::Include) {
        return Ok(Entry::Include(tokens.span(Kind::Text)?));
    }
    module_entry(alloc, tokens)
}

/// `{ #include text | module }`, all of the tokens.
pub(crate) fn file(alloc: Global, tokens: &mut Tokens<'_>) -> Result<List<Entry>, Halt>
    ensures { ReadsAll result tokens.new (file_at nesting_limit tokens.old) }
{
    let mut entries = List::new(alloc);
    'rest: while !tokens.is_empty() {
        let entry = entry(alloc, tokens)?;
        entries.push(entry)?;
    }
    Ok(entries)
}

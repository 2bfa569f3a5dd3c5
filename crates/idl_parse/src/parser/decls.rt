ghost use Rattle.std.specs.Prelude.{◌≡◌};
ghost use Rattle.idl_parse.specs.Grammar.{nesting_limit};
ghost use Rattle.idl_parse.specs.ReadSteps.{Reads, heading_at, struct_at, enum_at, const_at, name_after_at, key_at, interface_at, decl_at, ended_at, decls_at};

use super::funcs::funcs;
use super::halt::Halt;
use super::items::{Item, until};
use super::members::members;
use super::names::literal;
use super::tokens::Tokens;
use super::types::typed;
use crate::tree::{ConstTree, DeclTree, EnumTree, InterfaceTree, KeyTree, StructTree};
use idl_lex::{Keyword, Kind, Sign, Span};
use std::alloc::Global;
use tars_model::List;

/// A word, a name and `{`.
#[tactic(auto, unfolding(crate::specs::ReadSteps::heading_at))]
pub(super) fn heading(word: Keyword, tokens: &mut Tokens<'_>) -> Result<Span, Halt>
    ensures { Reads result tokens.new (heading_at word tokens.old) }
{
    tokens.expect(Kind::Keyword(word))?;
    let name = tokens.span(Kind::Ident)?;
    tokens.expect(Kind::Sign(Sign::OpenBrace))?;
    Ok(name)
}

/// `struct ident { { member ; } }`
#[tactic(auto, unfolding(crate::specs::ReadSteps::struct_at))]
fn struct_decl(alloc: Global, tokens: &mut Tokens<'_>) -> Result<DeclTree, Halt>
    ensures { Reads result tokens.new (struct_at nesting_limit tokens.old) }
{
    let name = heading(Keyword::Struct, tokens)?;
    let members = members(alloc, tokens)?;
    Ok(DeclTree::Struct(StructTree { name, members }))
}

/// `enum ident { [ item { , item } [ , ] ] }`
#[tactic(auto, using(crate::proofs::Parsing::Repeating::ItemLaws::item_comma_shrinks), unfolding(crate::specs::ReadSteps::enum_at, crate::specs::ReadSteps::items_at))]
fn enum_decl(alloc: Global, tokens: &mut Tokens<'_>) -> Result<DeclTree, Halt>
    ensures { Reads result tokens.new (enum_at tokens.old) }
{
    let name = heading(Keyword::Enum, tokens)?;
    let items = until(alloc, Sign::CloseBrace, tokens)?;
    Ok(DeclTree::Enum(EnumTree { name, items }))
}

/// `const type ident = literal`
#[tactic(auto, unfolding(crate::specs::ReadSteps::const_at, crate::specs::ReadSteps::default_at))]
fn const_decl(alloc: Global, tokens: &mut Tokens<'_>) -> Result<DeclTree, Halt>
    ensures { Reads result tokens.new (const_at nesting_limit tokens.old) }
{
    tokens.expect(Kind::Keyword(Keyword::Const))?;
    let typed = typed(alloc, tokens)?;
    tokens.expect(Kind::Sign(Sign::Equals))?;
    let value = literal(tokens)?;
    Ok(DeclTree::Const(ConstTree { typed, value }))
}

impl Item for Span {
    ghost reading = { name_after_at };

    /// `, ident`
    #[tactic(auto, unfolding(crate::specs::ReadSteps::name_after_at))]
    fn read(_alloc: Global, tokens: &mut Tokens<'_>) -> Result<Span, Halt> {
        tokens.expect(Kind::Sign(Sign::Comma))?;
        tokens.span(Kind::Ident)
    }
}

/// `key [ ident { , ident } ]`
#[tactic(auto, using(crate::proofs::Parsing::Repeating::Turns::name_turn), unfolding(crate::specs::ReadSteps::key_at, crate::specs::ReadSteps::names_at))]
fn key_decl(alloc: Global, tokens: &mut Tokens<'_>) -> Result<DeclTree, Halt>
    ensures { Reads result tokens.new (key_at tokens.old) }
{
    tokens.expect(Kind::Keyword(Keyword::Key))?;
    tokens.expect(Kind::Sign(Sign::OpenBracket))?;
    let struct_name = tokens.span(Kind::Ident)?;
    let members = until(alloc, Sign::CloseBracket, tokens)?;
    Ok(DeclTree::Key(KeyTree {
        struct_name,
        members,
    }))
}

/// `interface ident { { func ; } }`
#[tactic(auto, unfolding(crate::specs::ReadSteps::interface_at))]
fn interface_decl(alloc: Global, tokens: &mut Tokens<'_>) -> Result<DeclTree, Halt>
    ensures { Reads result tokens.new (interface_at nesting_limit tokens.old) }
{
    let name = heading(Keyword::Interface, tokens)?;
    let funcs = funcs(alloc, tokens)?;
    Ok(DeclTree::Interface(InterfaceTree { name, funcs }))
}

/// `struct | enum | const | key | interface`
#[tactic(auto, using(crate::proofs::Parsing::Repeating::TokenSteps::decl_by_kind))]
fn decl(alloc: Global, tokens: &mut Tokens<'_>) -> Result<DeclTree, Halt>
    ensures { Reads result tokens.new (decl_at nesting_limit tokens.old) }
{
    match tokens.first_kind() {
        Some(Kind::Keyword(Keyword::Struct)) => struct_decl(alloc, tokens),
        Some(Kind::Keyword(Keyword::Enum)) => enum_decl(alloc, tokens),
        Some(Kind::Keyword(Keyword::Const)) => const_decl(alloc, tokens),
        Some(Kind::Keyword(Keyword::Key)) => key_decl(alloc, tokens),
        _ => interface_decl(alloc, tokens),
    }
}

impl Item for DeclTree {
    ghost reading = { ended_at (decl_at nesting_limit) };

    /// `decl ;`
    fn read(alloc: Global, tokens: &mut Tokens<'_>) -> Result<DeclTree, Halt> {
        let decl = decl(alloc, tokens)?;
        tokens.expect(Kind::Sign(Sign::Semicolon))?;
        Ok(decl)
    }
}

/// `{ decl ; } }`
#[tactic(auto, using(crate::proofs::Parsing::Repeating::Turns::decl_turn), unfolding(crate::specs::ReadSteps::decls_at))]
pub(super) fn decls(alloc: Global, tokens: &mut Tokens<'_>) -> Result<List<DeclTree>, Halt>
    ensures { Reads result tokens.new (decls_at nesting_limit tokens.old) }
{
    until(alloc, Sign::CloseBrace, tokens)
}

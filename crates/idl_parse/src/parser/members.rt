ghost use Rattle.std.specs.Prelude.{◌≡◌};
ghost use Rattle.idl_parse.specs.Grammar.{nesting_limit};
ghost use Rattle.idl_parse.specs.ReadSteps.{Reads, means_at, member_end_at, member_at, ended_at, members_at};
ghost use Rattle.idl_parse.specs.Words.{requirement_of};

use super::halt::Halt;
use super::items::{Item, until};
use super::names::{array, literal};
use super::tokens::Tokens;
use super::types::typed;
use crate::tree::{ArrayLen, Literal, MemberTree, Requirement};
use idl_lex::{Keyword, Kind, Sign, Token};
use std::alloc::Global;
use tars_model::List;

/// What a word says of a member.
fn requirement_of(kind: Kind) -> Option<Requirement>
    ensures { result ≡ requirement_of kind }
{
    match kind {
        Kind::Keyword(Keyword::Require) => Some(Requirement::Require),
        Kind::Keyword(Keyword::Optional) => Some(Requirement::Optional),
        _ => None,
    }
}

/// `require` or `optional`
#[tactic(auto, unfolding(crate::specs::ReadSteps::means_at))]
fn requirement(tokens: &mut Tokens<'_>) -> Result<(Token, Requirement), Halt>
    ensures { Reads result tokens.new (means_at requirement_of tokens.old) }
{
    let word = tokens.first()?;
    let requirement = requirement_of(word.kind).ok_or(tokens.unexpected())?;
    tokens.skip();
    Ok((word, requirement))
}

/// `[ array ] [ = literal ]`
#[tactic(auto, unfolding(crate::specs::ReadSteps::member_end_at, crate::specs::ReadSteps::default_at))]
fn member_end(tokens: &mut Tokens<'_>) -> Result<(Option<ArrayLen>, Option<Literal>), Halt>
    ensures { Reads result tokens.new (member_end_at tokens.old) }
{
    let array = if tokens.sees(Kind::Sign(Sign::OpenBracket)) {
        Some(array(tokens)?)
    } else {
        None
    };
    let default = if tokens.eat(Kind::Sign(Sign::Equals)) {
        Some(literal(tokens)?)
    } else {
        None
    };
    Ok((array, default))
}

#[tactic(auto, unfolding(crate::specs::ReadSteps::member_at))]
fn member(alloc: Global, tokens: &mut Tokens<'_>) -> Result<MemberTree, Halt>
    ensures { Reads result tokens.new (member_at nesting_limit tokens.old) }
{
    let tag = tokens.span(Kind::Number)?;
    let (_, requirement) = requirement(tokens)?;
    let typed = typed(alloc, tokens)?;
    let (array, default) = member_end(tokens)?;
    Ok(MemberTree {
        tag,
        requirement,
        typed,
        array,
        default,
    })
}

impl Item for MemberTree {
    ghost reading = { ended_at (member_at nesting_limit) };

    /// `member ;`
    fn read(alloc: Global, tokens: &mut Tokens<'_>) -> Result<MemberTree, Halt> {
        let member = member(alloc, tokens)?;
        tokens.expect(Kind::Sign(Sign::Semicolon))?;
        Ok(member)
    }
}

/// `{ member ; } }`
#[tactic(auto, using(crate::proofs::Parsing::Repeating::Turns::member_turn), unfolding(crate::specs::ReadSteps::members_at))]
pub(super) fn members(alloc: Global, tokens: &mut Tokens<'_>) -> Result<List<MemberTree>, Halt>
    ensures { Reads result tokens.new (members_at nesting_limit tokens.old) }
{
    until(alloc, Sign::CloseBrace, tokens)
}

ghost use Rattle.std.specs.Prelude.{◌≡◌};
ghost use Rattle.idl_parse.specs.ReadSteps.{Reads, scoped_at, array_at, word_literal_at, literal_at};
ghost use Rattle.idl_parse.specs.Words.{literal_of, scoped_name};

use super::halt::Halt;
use super::tokens::Tokens;
use crate::tree::{ArrayLen, Literal, LiteralWord, ScopedName};
use idl_lex::{Keyword, Kind, Sign, Span};

/// The name that stands alone, or after `::`.
fn scoped_name(first: Span, second: Option<Span>) -> ScopedName
    ensures { result ≡ scoped_name first second }
{
    match second {
        Some(name) => ScopedName {
            scope: Some(first),
            name,
        },
        None => ScopedName {
            scope: None,
            name: first,
        },
    }
}

/// `ident [ :: ident ]`
#[tactic(auto, unfolding(crate::specs::ReadSteps::scoped_at, crate::specs::ReadSteps::second_at))]
pub(super) fn scoped(tokens: &mut Tokens<'_>) -> Result<ScopedName, Halt>
    ensures { Reads result tokens.new (scoped_at tokens.old) }
{
    let first = tokens.span(Kind::Ident)?;
    let second = if tokens.eat(Kind::Sign(Sign::PathSep)) {
        Some(tokens.span(Kind::Ident)?)
    } else {
        None
    };
    Ok(scoped_name(first, second))
}

/// `[ number ]`
#[tactic(auto, unfolding(crate::specs::ReadSteps::array_at))]
pub(super) fn array(tokens: &mut Tokens<'_>) -> Result<ArrayLen, Halt>
    ensures { Reads result tokens.new (array_at tokens.old) }
{
    let at = tokens.expect(Kind::Sign(Sign::OpenBracket))?.start;
    let length = tokens.span(Kind::Number)?;
    tokens.expect(Kind::Sign(Sign::CloseBracket))?;
    Ok(ArrayLen { at, length })
}

/// The literal that a token of the kind is.
fn literal_of(kind: Kind) -> Option<LiteralWord>
    ensures { result ≡ literal_of kind }
{
    match kind {
        Kind::Number => Some(LiteralWord::Number),
        Kind::Fraction => Some(LiteralWord::Fraction),
        Kind::Text => Some(LiteralWord::Text),
        Kind::Keyword(Keyword::True) => Some(LiteralWord::True),
        Kind::Keyword(Keyword::False) => Some(LiteralWord::False),
        _ => None,
    }
}

#[tactic(auto, unfolding(crate::specs::ReadSteps::literal_at, crate::specs::ReadSteps::named_literal_at))]
pub(super) fn literal(tokens: &mut Tokens<'_>) -> Result<Literal, Halt>
    ensures { Reads result tokens.new (literal_at tokens.old) }
{
    if tokens.sees(Kind::Ident) {
        Ok(Literal::Named(scoped(tokens)?))
    } else {
        word_literal(tokens)
    }
}

#[tactic(auto, unfolding(crate::specs::ReadSteps::word_literal_at, crate::specs::ReadSteps::means_at))]
fn word_literal(tokens: &mut Tokens<'_>) -> Result<Literal, Halt>
    ensures { Reads result tokens.new (word_literal_at tokens.old) }
{
    let token = tokens.first()?;
    let word = literal_of(token.kind).ok_or(tokens.unexpected())?;
    tokens.skip();
    Ok(Literal::Word {
        word,
        span: token.span(),
    })
}

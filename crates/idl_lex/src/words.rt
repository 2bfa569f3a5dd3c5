//! The longest token at the start of bytes that is no text.

ghost use Rattle.std.specs.Prelude.{◌≡◌};
ghost use Rattle.idl_lex.specs.LexSteps as spec;
ghost use Rattle.idl_lex.specs.LexSteps.{Gives};
ghost use Rattle.idl_lex.specs.LexSteps.{candidate_of};

use crate::candidate::Candidate;
use crate::keyword::keyword_of;
use crate::kind::Kind;
use crate::numbers::number;
use crate::runs::{Class, is_in, split_run};
use crate::sign::Sign;

/// The identifier or keyword at the start.
#[tactic(auto, unfolding(crate::specs::LexSteps::word_at))]
fn word(bytes: &[u8]) -> Candidate<'_>
    ensures { candidate_of result ≡ spec.word_at bytes.now }
{
    let (word, rest) = split_run(bytes, Class::Word);
    let kind = match keyword_of(word) {
        Some(keyword) => Kind::Keyword(keyword),
        None => Kind::Ident,
    };
    Candidate {
        kind,
        in_range: true,
        rest,
    }
}

#[tactic(auto, unfolding(crate::specs::LexSteps::include_at))]
fn include(bytes: &[u8]) -> Option<Candidate<'_>>
    ensures { Gives candidate_of result (spec.include_at bytes.now) }
{
    let rest = bytes.strip_prefix(b"#include")?;
    Some(Candidate {
        kind: Kind::Include,
        in_range: true,
        rest,
    })
}

fn sign_candidate(rest: &[u8], sign: Sign) -> Candidate<'_>
    ensures { candidate_of result ≡ spec.sign_candidate rest.now sign }
{
    Candidate {
        kind: Kind::Sign(sign),
        in_range: true,
        rest,
    }
}

#[tactic(auto, unfolding(crate::specs::LexSteps::sign_at))]
fn sign(bytes: &[u8]) -> Option<Candidate<'_>>
    ensures { Gives candidate_of result (spec.sign_at bytes.now) }
{
    match bytes {
        [b':', b':', rest @ ..] => Some(sign_candidate(rest, Sign::PathSep)),
        [first, rest @ ..] => Some(sign_candidate(rest, Sign::from_byte(*first)?)),
        [] => None,
    }
}

#[tactic(auto, unfolding(crate::specs::LexSteps::token_at))]
pub fn token(bytes: &[u8]) -> Option<Candidate<'_>>
    ensures { Gives candidate_of result (spec.token_at bytes.now) }
{
    let first = *bytes.first()?;
    if first.is_ascii_alphabetic() {
        Some(word(bytes))
    } else if first == b'-' || is_in(Class::Decimal, first) {
        number(bytes)
    } else if first == b'#' {
        include(bytes)
    } else {
        sign(bytes)
    }
}

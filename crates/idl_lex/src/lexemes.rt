//! The lexemes of a text: white space, comments and tokens.

ghost use Rattle.std.specs.Prelude.{◌≡◌, ◌≢◌, [], false, None, Some, IfOk, IfErr};
ghost use Rattle.idl_lex.specs.LexSteps.{after_trivia, begins_comment, sound_candidate};
ghost use Rattle.idl_lex.specs.LexSteps.{candidate_of};
ghost use Rattle.idl_lex.specs.Bytes.{begins, is_quote};
ghost use Rattle.idl_lex.specs.Tokens.{IsLexeme, IsFault};

use crate::candidate::Candidate;
use crate::fault::Fault;
use crate::kind::Kind;
use crate::lex_fault::LexWhy;
use crate::runs::{Class, begins};
use crate::texts::after_text;
use crate::trivia::after_trivia;
use crate::words::token;

/// Whether a number is in its range, and no letter or `_` follows it.
fn is_sound(candidate: Candidate<'_>) -> bool
    ensures { result ≡ sound_candidate (candidate_of candidate.entry) }
{
    match candidate.kind {
        Kind::Number | Kind::Fraction => candidate.in_range
            && !begins(candidate.rest, Class::LetterOrLow),
        _ => true,
    }
}

/// The token at the start of bytes that begin with no trivia, comment or text.
fn judged_token(bytes: &[u8]) -> Result<(Kind, &[u8]), Fault<'_>>
    requires some { bytes.now ≢ [] }
    requires no_trivia { after_trivia bytes.now ≡ None }
    requires no_comment { begins_comment bytes.now ≡ false }
    requires no_text { begins is_quote bytes.now ≡ false }
    ensures token { IfOk result (λ found. IsLexeme bytes.now (Some found.0) found.1.now) }
    ensures fault { IfErr result (λ fault. IsFault bytes.now fault.from.now fault.why) }
{
    match token(bytes) {
        Some(candidate) if is_sound(candidate) => Ok((candidate.kind, candidate.rest)),
        Some(_) => Err(Fault {
            from: bytes,
            why: LexWhy::BadNumber,
        }),
        None => Err(Fault {
            from: bytes,
            why: LexWhy::BadByte,
        }),
    }
}

/// The token at the start of bytes that begin with no white space or comment.
fn token_lexeme(bytes: &[u8]) -> Result<(Kind, &[u8]), Fault<'_>>
    requires some { bytes.now ≢ [] }
    requires no_trivia { after_trivia bytes.now ≡ None }
    ensures token { IfOk result (λ found. IsLexeme bytes.now (Some found.0) found.1.now) }
    ensures fault { IfErr result (λ fault. IsFault bytes.now fault.from.now fault.why) }
{
    match bytes {
        [b'"', ..] => Ok((Kind::Text, after_text(bytes)?)),
        [b'/', b'*', ..] => Err(Fault {
            from: bytes,
            why: LexWhy::OpenComment,
        }),
        _ => judged_token(bytes),
    }
}

/// The lexeme at the start and what stands after it; trivia has no kind.
pub fn lexeme(bytes: &[u8]) -> Result<(Option<Kind>, &[u8]), Fault<'_>>
    requires { bytes.now ≢ [] }
    ensures lexeme { IfOk result (λ found. IsLexeme bytes.now found.0 found.1.now) }
    ensures fault { IfErr result (λ fault. IsFault bytes.now fault.from.now fault.why) }
{
    if let Some(rest) = after_trivia(bytes) {
        return Ok((None, rest));
    }
    let (kind, rest) = token_lexeme(bytes)?;
    Ok((Some(kind), rest))
}

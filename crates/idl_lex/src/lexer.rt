//! A text as tokens.

ghost use Rattle.std.specs.Prelude.{◌≡◌, ◌⊎◌, ◌-◌, ◌^◌, ◌<◌, ◌≤◌, ℕ, length, List as Listed, IfOk, IfErr};
ghost use Rattle.idl_lex.specs.declared.token.Token.{Token as Found};
ghost use Rattle.idl_lex.specs.declared.lex_fault.LexWhy.{LexWhy as Why};
ghost use Rattle.idl_lex.specs.Tokens.{Tokens, IsLexFault};
ghost use Rattle.idl_lex.specs.Spans.{AreSpans};
ghost use Rattle.idl_lex.specs.Texts.{TextSpells};
ghost use Rattle.idl_lex.specs.LexAnswers.{GivesTokens, GivesFault, IsFaultOf};

use crate::fault::Fault;
use crate::lex_fault::LexFault;
use crate::lexemes::lexeme;
use crate::token::Token;
use std::alloc::Global;
use tars_model::List;

/// Where the rest of the text begins.
fn offset_of(text: &[u8], rest: &[u8]) -> u32
    requires fits { length text.now < 2 ^ 32 }
    requires within { length rest.now ≤ length text.now }
    ensures { result ≡ length text.now - length rest.now }
{
    (text.len() - rest.len()) as u32
}

/// The tokens of a text of fewer than 2^32 bytes, in order (docs/IDL.md, "Tokens").
pub fn lex(alloc: Global, text: &[u8]) -> Result<List<Token>, LexFault>
    requires { length text.now < 2 ^ 32 }
    // What is given are the text's tokens.
    ensures tokens { IfOk result (λ tokens. Tokens text.now tokens) }
    // A text's tokens are given, unless memory runs out.
    ensures only { (tokens : Listed Found) → Tokens text.now tokens → GivesTokens result tokens }
    // A fault is the first one from the left.
    ensures fault { IfErr result (λ fault. IsFaultOf fault text.now) }
    // A text's first fault is given, unless memory runs out.
    ensures refused { (at : ℕ) (why : Why) → IsLexFault text.now at why → GivesFault result at why }
{
    let mut tokens = List::new(alloc);
    let mut rest = text;
    'lexemes: while !rest.is_empty() {
        let (kind, next) = match lexeme(rest) {
            Ok(found) => found,
            Err(Fault { from, why }) => {
                return Err(LexFault::Bad {
                    at: offset_of(text, from),
                    why,
                });
            }
        };
        if let Some(kind) = kind {
            tokens.push(Token {
                kind,
                start: offset_of(text, rest),
                end: offset_of(text, next),
            })?;
        }
        rest = next;
    }
    Ok(tokens)
}

/// What holds of every text: it has one list of tokens or one first fault, and not both. The tokens
/// are slices of the text, one after the other, and a text in quotes spells one thing.
pub fn one_outcome()
    ensures some { (text : Listed ℕ) → ((tokens : Listed Found) × Tokens text tokens)
        ⊎ ((at : ℕ) × (why : Why) × IsLexFault text at why) }
    ensures tokens { (text : Listed ℕ) (a b : Listed Found) → Tokens text a → Tokens text b → a ≡ b }
    ensures fault { (text : Listed ℕ) (a b : ℕ) (v w : Why) → IsLexFault text a v → IsLexFault text b w
        → (a ≡ b) × (v ≡ w) }
    ensures not_both { (text : Listed ℕ) (tokens : Listed Found) (at : ℕ) (why : Why) → Tokens text tokens
        → ¬ (IsLexFault text at why) }
    ensures spelling { (a b bytes r s : Listed ℕ) → TextSpells a bytes r → TextSpells b bytes s → (a ≡ b) × (r ≡ s) }
    ensures spans { (text : Listed ℕ) (tokens : Listed Found) → Tokens text tokens → AreSpans text 0 tokens }
{}

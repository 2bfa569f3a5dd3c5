//! Texts of the Tars interface language as tokens (docs/IDL.md, "Tokens"). `lex` gives the tokens of a text or its
//! first fault from the left, and nothing is copied: a token is a span of the text. `whole_number` and `plain_text`
//! give what the bytes of a number or of a text in quotes mean, and `split_run` the word at the start of bytes. The
//! grammar is in `idl_parse`.
//!
//! Read `specs/Forms.antt` and `specs/Tokens.antt` first, which say what tokens and fault a text has, then
//! `specs/Texts.antt` and `specs/Trivia.antt`, which have texts in quotes, white space and comments, and
//! `specs/Meanings.antt`, which says what numbers and texts mean. The modules named `*Steps` follow the code's
//! steps and are for the proofs.
#![tactic(auto)]

mod candidate;
mod escape;
mod fault;
mod keyword;
mod kind;
mod lex_fault;
mod lexemes;
mod lexer;
mod numbers;
mod runs;
mod sign;
mod span;
mod texts;
mod token;
mod trivia;
mod words;

pub use escape::plain_text;
pub use keyword::Keyword;
pub use kind::Kind;
pub use lex_fault::{LexFault, LexWhy};
pub use lexer::{lex, one_outcome};
pub use numbers::whole_number;
pub use runs::{Class, split_run};
pub use sign::Sign;
pub use span::Span;
pub use token::Token;

use super::ScopedName;
use idl_lex::Span;

/// The literals of one token.
#[derive(Clone, Copy, Debug, PartialEq, Eq)]
pub enum LiteralWord {
    Number,
    Fraction,
    Text,
    True,
    False,
}

/// A default or the value of a constant.
#[derive(Clone, Copy, PartialEq, Eq)]
pub enum Literal {
    /// A number, fraction, text (with its quotes, escapes as they are written) or truth value.
    Word { word: LiteralWord, span: Span },
    Named(ScopedName),
}

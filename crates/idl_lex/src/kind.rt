use crate::keyword::Keyword;
use crate::sign::Sign;

/// What a token is (docs/IDL.md, "Tokens").
#[derive(Clone, Copy, Debug, PartialEq, Eq)]
pub enum Kind {
    /// A letter, then letters, digits and `_`, and no keyword.
    Ident,
    Keyword(Keyword),
    /// A whole number from -2^63 to 2^63 - 1, decimal or hexadecimal.
    Number,
    /// Decimal digits with a point between them.
    Fraction,
    /// A text in quotes, escapes as they are written.
    Text,
    /// `#include`
    Include,
    Sign(Sign),
}

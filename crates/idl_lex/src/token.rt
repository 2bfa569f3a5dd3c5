ghost use Rattle.std.specs.Prelude.{◌≡◌};
ghost use Rattle.idl_lex.specs.Spans.{span};

use crate::kind::Kind;
use crate::span::Span;

/// A token of a text: the text's bytes from `start` up to `end`.
#[derive(Clone, Copy, PartialEq, Eq)]
pub struct Token {
    pub kind: Kind,
    pub start: u32,
    pub end: u32,
}

impl Token {
    /// The bytes of the text that it is.
    pub fn span(self) -> Span
        ensures { result ≡ span self }
    {
        Span {
            start: self.start,
            end: self.end,
        }
    }
}

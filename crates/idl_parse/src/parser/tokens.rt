ghost use Rattle.std.specs.Prelude.{◌≡◌, ◌↔◌, IsTrue, [], drop, is_some};
ghost use Rattle.idl_parse.specs.KindSteps.{same_kind, first_kind, begins};
ghost use Rattle.idl_parse.specs.ReadSteps.{Reads, Eats, Takes, HasFirst, one_at, span_at};
ghost use Rattle.idl_parse.specs.declared.parse_fault.ParseWhy.TheVariants.{Unexpected as unexpected};
ghost use Rattle.idl_parse.specs.declared.parser.halt.Halt.TheVariants.{Grammar as grammar};

use super::halt::Halt;
use crate::parse_fault::ParseWhy;
use idl_lex::{Kind, Span, Token};
use std::marker::Model;

/// The tokens that are left to read.
#[derive(Drop)]
pub(crate) struct Tokens<'a> {
    left: &'a [Token],
}

impl<'a> Model for Tokens<'a> {
    ghost use Rattle.std.specs.Prelude.{List};
    ghost use Rattle.idl_lex.specs.declared.token.Token.{Token as Found};

    ghost Value = { List Found };

    ghost view = { λ t. t.left.now };
}

impl<'a> Tokens<'a> {
    pub(crate) fn new(left: &'a [Token]) -> Tokens<'a>
        ensures { result ≡ left.now }
    {
        Tokens { left }
    }

    pub(crate) fn left(&self) -> &'a [Token]
        ensures { result.now ≡ self.now }
    {
        self.left
    }

    /// The first token may not stand there, or the text ends too early.
    pub(super) fn unexpected(&self) -> Halt
        ensures { result ≡ grammar unexpected }
    {
        Halt::Grammar(ParseWhy::Unexpected)
    }

    /// The first token, which stays.
    pub(super) fn first(&self) -> Result<Token, Halt>
        ensures { HasFirst result self.now }
    {
        match self.left {
            [first, ..] => Ok(*first),
            [] => Err(self.unexpected()),
        }
    }

    /// The first token's kind.
    #[tactic(auto, unfolding(crate::specs::KindSteps::first_kind))]
    pub(super) fn first_kind(&self) -> Option<Kind>
        ensures { result ≡ first_kind self.now }
    {
        match self.left {
            [first, ..] => Some(first.kind),
            [] => None,
        }
    }

    pub(super) fn is_empty(&self) -> bool
        ensures { IsTrue result ↔ (self.now ≡ []) }
    {
        self.left.is_empty()
    }

    /// Goes past the first token.
    pub(super) fn skip(&mut self)
        ensures { self.new ≡ drop 1 self.old }
    {
        if let [_, rest @ ..] = self.left {
            self.left = rest;
        }
    }

    /// Whether the first token is of the kind.
    #[tactic(auto, unfolding(crate::specs::KindSteps::begins))]
    pub(super) fn sees(&self, kind: Kind) -> bool
        ensures { result ≡ begins kind self.now }
    {
        match self.left {
            [] => false,
            [first, ..] => same_kind(first.kind, kind),
        }
    }

    /// Takes the first token where it is of the kind.
    #[tactic(auto, unfolding(crate::specs::ReadSteps::one_at, crate::specs::KindSteps::begins))]
    pub(super) fn next_if(&mut self, kind: Kind) -> Option<Token>
        ensures sees { is_some result ≡ begins kind self.old }
        ensures takes { Takes result self.new (one_at kind self.old) self.old }
    {
        match self.left {
            [first, rest @ ..] if same_kind(first.kind, kind) => {
                self.left = rest;
                Some(*first)
            }
            _ => None,
        }
    }

    /// Takes the first token where it is of the kind, and tells whether it is.
    pub(super) fn eat(&mut self, kind: Kind) -> bool
        ensures sees { result ≡ begins kind self.old }
        ensures eats { Eats result self.new (one_at kind self.old) self.old }
    {
        self.next_if(kind).is_some()
    }

    /// Takes a token of the kind.
    #[tactic(auto, unfolding(crate::specs::ReadSteps::one_at, crate::specs::KindSteps::begins))]
    pub(super) fn expect(&mut self, kind: Kind) -> Result<Token, Halt>
        ensures { Reads result self.new (one_at kind self.old) }
    {
        self.next_if(kind).ok_or(self.unexpected())
    }

    /// Takes a token of the kind, and gives its span.
    #[tactic(auto, unfolding(crate::specs::ReadSteps::span_at))]
    pub(super) fn span(&mut self, kind: Kind) -> Result<Span, Halt>
        ensures { Reads result self.new (span_at kind self.old) }
    {
        Ok(self.expect(kind)?.span())
    }
}

/// Whether a kind is the wanted one.
fn same_kind(kind: Kind, wanted: Kind) -> bool
    ensures { result ≡ same_kind kind wanted }
{
    kind == wanted
}

//! The bytes that are left to read, and what is read of them one byte or word at a time. After an error they begin with
//! the byte at fault.

ghost use Rattle.std.specs.Prelude.{◌≡◌, length, codes};
ghost use Rattle.value_text.specs.ReadSteps as spec;
ghost use Rattle.value_text.specs.Spelling.{past_gap};
ghost use Rattle.value_text.specs.ReadSteps.{Reads, Moves, Closes};
ghost use Rattle.value_text.specs.declared.value_fault.ValueWhy.TheVariants.{Unexpected as unexpected};
ghost use Rattle.value_text.specs.declared.halt.Halt.TheVariants.{Bad as bad};

use crate::halt::Halt;
use crate::value_fault::ValueWhy;
use std::marker::Model;

/// How the bytes of a text or blob stand.
#[derive(Clone, Copy)]
pub(crate) enum Form {
    /// Between quotes, some of them escaped.
    Quoted,
    /// As two hexadecimal digits each.
    Hexadecimal,
}

/// The bytes that are left to read.
#[derive(Drop)]
pub(crate) struct Cursor<'a> {
    rest: &'a [u8],
}

impl<'a> Model for Cursor<'a> {
    ghost use Rattle.std.specs.Prelude.{List, ℕ};

    ghost Value = { List ℕ };

    ghost view = { λ c. c.rest.now };
}

impl<'a> Cursor<'a> {
    pub(crate) fn new(rest: &'a [u8]) -> Cursor<'a>
        ensures { result ≡ rest.now }
    {
        Cursor { rest }
    }

    pub(crate) fn rest(&self) -> &'a [u8]
        ensures { result.now ≡ self.now }
    {
        self.rest
    }

    /// Goes to where these bytes are left.
    pub(crate) fn go_to(&mut self, rest: &'a [u8])
        ensures { self.new ≡ rest.now }
    {
        self.rest = rest;
    }

    /// The first byte may not stand there, or the text ends too early.
    pub(crate) fn unexpected(&self) -> Halt
        ensures { result ≡ bad unexpected }
    {
        Halt::Bad(ValueWhy::Unexpected)
    }

    /// Goes past spaces and line feeds.
    pub(crate) fn gap(&mut self)
        ensures { self.new ≡ past_gap self.old }
    {
        let mut left = self.rest;
        while let [b' ' | b'\n', after @ ..] = left {
            left = after;
        }
        self.rest = left;
    }

    /// Takes the byte.
    #[tactic(auto, unfolding(crate::specs::ReadSteps::byte_at))]
    pub(crate) fn byte(&mut self, wanted: u8) -> Result<(), Halt>
        ensures { Moves result self.new (spec.byte_at wanted self.old) }
    {
        match self.rest {
            [first, rest @ ..] if *first == wanted => {
                self.rest = rest;
                Ok(())
            }
            _ => Err(self.unexpected()),
        }
    }

    /// Takes the byte, and the gap after it.
    #[tactic(auto, unfolding(crate::specs::ReadSteps::sign_at))]
    pub(crate) fn sign(&mut self, wanted: u8) -> Result<(), Halt>
        ensures { Moves result self.new (spec.sign_at wanted self.old) }
    {
        self.byte(wanted)?;
        self.gap();
        Ok(())
    }

    /// Takes the bytes of a word.
    pub(crate) fn word(&mut self, word: &[u8]) -> Result<(), Halt>
        ensures { Moves result self.new (spec.word_at word.now self.old) }
    {
        for wanted in word {
            self.byte(*wanted)?;
        }
        Ok(())
    }

    /// Takes a closing sign where it stands, and tells whether it does.
    pub(crate) fn closes(&mut self, close: u8) -> bool
        ensures { Closes result self.new close self.old }
    {
        match self.rest {
            [first, rest @ ..] if *first == close => {
                self.rest = rest;
                true
            }
            _ => false,
        }
    }

    /// After an element: takes the closing sign, or a comma and the gap after it. Tells whether it was the closing sign.
    #[tactic(auto, unfolding(crate::specs::ReadSteps::turn_after))]
    pub(crate) fn turn(&mut self, close: u8) -> Result<bool, Halt>
        ensures { Reads result self.new (spec.turn_at close self.old) }
    {
        self.gap();
        match self.rest {
            [first, rest @ ..] if *first == close => {
                self.rest = rest;
                Ok(true)
            }
            [b',', rest @ ..] => {
                self.rest = rest;
                self.gap();
                Ok(false)
            }
            _ => Err(self.unexpected()),
        }
    }
}

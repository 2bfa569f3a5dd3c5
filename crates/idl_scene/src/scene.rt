ghost use Rattle.std.specs.Prelude.{◌≡◌};
ghost use Rattle.idl_parse.specs.TreeSpans.{NameIn, NumberIn, ScopedIn, IfThere};
ghost use Rattle.idl_lex.specs.Meanings.{whole_number};
ghost use Rattle.idl_scene.specs.NumberSteps.{long_of, tag_at, tag_of_option};
ghost use Rattle.idl_scene.specs.Items.{word};
ghost use Rattle.idl_scene.specs.Known.{find};
ghost use Rattle.idl_scene.specs.KnownSteps.{meant};
ghost use Rattle.idl_scene.specs.Types.{home_at, meaning_of};

use crate::known::{Meaning, Names, Room};
use idl_lex::{Span, whole_number};
use idl_parse::tree::ScopedName;
use std::marker::Model;

/// Where a declaration stands, and what is known there.
#[derive(Drop)]
pub struct Scene<'s, 'a> {
    pub file: u32,
    pub text: &'a [u8],
    pub home: &'a [u8],
    pub names: &'s Names<'a>,
    pub room: Room,
}

impl<'s, 'a> Model for Scene<'s, 'a> {
    ghost use Rattle.idl_scene.specs.Known.{Scene as Seen};

    ghost Value = { Seen };

    ghost view = { λ s. record { file = s.file; text = s.text.now; home = s.home.now; known = s.names.now; room = s.room } };
}

fn tag_of_long(number: Option<i64>) -> Option<u8>
    ensures { result ≡ tag_of_option number }
{
    match number {
        Some(number) => u8::try_from(number).ok(),
        None => None,
    }
}

impl<'s, 'a> Scene<'s, 'a> {
    /// The bytes of a name.
    pub fn word(&self, span: Span) -> &'a [u8]
        requires { NameIn self.now.text span }
        ensures { result.now ≡ word self.now.text span }
    {
        span.slice(self.text)
    }

    /// The module of a type's name: its own where none is written.
    fn home_at(&self, scope: Option<Span>) -> &'a [u8]
        requires { IfThere (NameIn self.now.text) scope }
        ensures { result.now ≡ home_at self.now scope }
    {
        match scope {
            Some(scope) => self.word(scope),
            None => self.home,
        }
    }

    /// The whole number that is written, if it is an i64.
    #[tactic(auto, using(crate::proofs::NumberLaws::long_is))]
    pub fn number(&self, span: Span) -> Option<i64>
        requires { NumberIn self.now.text span }
        ensures { result ≡ long_of (whole_number (word self.now.text span)) }
    {
        whole_number(span.slice(self.text))
    }

    /// The tag that is written, if it may be one.
    #[tactic(auto, using(crate::proofs::NumberLaws::tag_of_long))]
    pub fn tag(&self, span: Span) -> Option<u8>
        requires { NumberIn self.now.text span }
        ensures { result ≡ tag_at self.now span }
    {
        tag_of_long(self.number(span))
    }

    /// What a name means in the module where the scene is.
    pub fn meaning_here(&self, name: Span) -> Option<&'s Meaning<'a>>
        requires { NameIn self.now.text name }
        ensures { meant result ≡ find self.now.home (word self.now.text name) self.now.known }
    {
        self.names.find(self.home, self.word(name))
    }

    /// What a type's name means.
    pub fn meaning(&self, name: ScopedName) -> Option<&'s Meaning<'a>>
        requires { ScopedIn self.now.text name }
        ensures { meant result ≡ meaning_of self.now name }
    {
        self.names
            .find(self.home_at(name.scope), self.word(name.name))
    }
}

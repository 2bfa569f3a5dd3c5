ghost use Rattle.std.specs.Prelude.{◌≡◌, List, [], ◌∷◌, Some, IfSome};
ghost use Rattle.wire_words.specs.Tree.{WireFields};
ghost use Rattle.tars_wire.specs.Heads.{MAX_DEPTH, opens};
ghost use Rattle.tars_wire.specs.Spelled.{IsBody, Spelled};
ghost use Rattle.tars_wire.specs.Left.{Remaining, fields_left, IsLeft, IsNext, NextIs, is_any_type, is_number_type, is_text_type, is_simple_type, head_left, of_next, next_of, number_in, text_in, simple_in, skipped, size_in, entered, left_over, HasEntered};

mod known;
mod levels;

use crate::head::Head;
use crate::head_context::MAX_OPEN;
use crate::level::Level;
use known::{enter_level, known_head, known_number, known_simple, known_text, past_value};
use levels::{next_head, past_level};
use std::marker::Model;

/// How many levels may be around the innermost one.
const MAX_LEVELS: usize = MAX_OPEN as usize;

/// A walk over a body: it hands out the fields in order and copies nothing.
#[derive(Drop)]
pub struct Cursor<'a> {
    rest: &'a [u8],
    here: Level,
    /// The levels around this one, the outermost first.
    outer: [Level; MAX_LEVELS],
    depth: usize,
}

impl<'a> Model for Cursor<'a> {
    ghost use Rattle.std.specs.Prelude.{◌-◌, ◌∷◌};
    ghost use Rattle.tars_wire.specs.Heads.{MAX_DEPTH};
    ghost use Rattle.tars_wire.specs.Left.{Standing, Stands, levels_around};

    ghost Value = { Standing };

    ghost view = { λ c. record { bytes = c.rest.now; room = MAX_DEPTH - c.depth; levels = c.here ∷ levels_around c.outer c.depth } };

    ghost invariant = { λ c. Stands c.rest.now c.here c.outer c.depth };
}

impl<'a> Cursor<'a> {
    /// A walk over the fields of a body.
    pub(crate) fn over(bytes: &'a [u8]) -> Cursor<'a>
        requires { IsBody bytes.now }
        ensures { (fields : WireFields) → Spelled MAX_DEPTH bytes.now fields → IsLeft result (fields_left fields ∷ []) }
    {
        Cursor {
            rest: bytes,
            here: Level::Body,
            outer: [Level::Body; MAX_LEVELS],
            depth: 0,
        }
    }

    /// The tag and the type of the next field. None at the end of this body, struct, list or map.
    pub fn head(&self) -> Option<Head>
        ensures head { (left : List Remaining) → IsLeft self.now left → result ≡ head_left left }
        ensures next { IfSome result (λ head. IsNext self.now head) }
        ensures some { (left : List Remaining) × IsLeft self.now left }
    {
        next_head(self.here, self.rest)
    }

    /// Goes past the next field, whatever it is.
    pub fn skip(&mut self)
        requires { NextIs self.old is_any_type }
        ensures { (left : List Remaining) → IsLeft self.old left → IsLeft self.new (skipped left) }
    {
        let (head, after) = known_head(self.rest);
        self.rest = past_value(MAX_OPEN - self.depth as u8, head.kind, after);
        self.here = self.here.less();
    }

    /// The next field's whole number.
    pub fn number(&mut self) -> i64
        requires { NextIs self.old is_number_type }
        ensures number { (left : List Remaining) → IsLeft self.old left → of_next number_in (next_of left) ≡ Some result }
        ensures left { (left : List Remaining) → IsLeft self.old left → IsLeft self.new (skipped left) }
    {
        let (head, after) = known_head(self.rest);
        let (number, rest) = known_number(head.kind, after);
        self.rest = rest;
        self.here = self.here.less();
        number
    }

    /// The bytes of the next field's string.
    pub fn text(&mut self) -> &'a [u8]
        requires { NextIs self.old is_text_type }
        ensures text { (left : List Remaining) → IsLeft self.old left → of_next text_in (next_of left) ≡ Some result.now }
        ensures left { (left : List Remaining) → IsLeft self.old left → IsLeft self.new (skipped left) }
    {
        let (head, after) = known_head(self.rest);
        let (text, rest) = known_text(head.kind, after);
        self.rest = rest;
        self.here = self.here.less();
        text
    }

    /// The bytes of the next field's simple list.
    pub fn simple(&mut self) -> &'a [u8]
        requires { NextIs self.old is_simple_type }
        ensures bytes { (left : List Remaining) → IsLeft self.old left → of_next simple_in (next_of left) ≡ Some result.now }
        ensures left { (left : List Remaining) → IsLeft self.old left → IsLeft self.new (skipped left) }
    {
        let (_, after) = known_head(self.rest);
        let (bytes, rest) = known_simple(after);
        self.rest = rest;
        self.here = self.here.less();
        bytes
    }

    /// Goes into the next field, a list, a map or a struct, and returns how many elements or pairs it has;
    /// 0 for a struct.
    pub fn enter(&mut self) -> u32
        requires { NextIs self.old opens }
        ensures size { (left : List Remaining) → IsLeft self.old left → of_next size_in (next_of left) ≡ Some result }
        ensures left { (left : List Remaining) → IsLeft self.old left → IsLeft self.new (entered left) }
        ensures inside { HasEntered self.new }
    {
        let (head, after) = known_head(self.rest);
        let (inside, size, rest) = enter_level(head.kind, after);
        self.outer[self.depth] = self.here.less();
        self.depth += 1;
        self.here = inside;
        self.rest = rest;
        size
    }

    /// Goes past the end of what was entered last and is not left yet, from wherever the walk stands in it.
    pub fn leave(&mut self)
        requires { HasEntered self.old }
        ensures { (left : List Remaining) → IsLeft self.old left → IsLeft self.new (left_over left) }
    {
        self.rest = past_level(MAX_OPEN - self.depth as u8, self.here, self.rest);
        self.depth -= 1;
        self.here = self.outer[self.depth];
    }
}

ghost use Rattle.std.specs.Prelude.{◌≡◌};
ghost use Rattle.idl_parse.specs.Grammar.{nesting_limit};
ghost use Rattle.idl_parse.specs.ReadSteps.{Reads, Fails, basic_at, unsigned_at, is_type_start, no_room_at, vector_at, map_at, type_with, type_at, typed_at};
ghost use Rattle.idl_parse.specs.Words.{basic_of, unsigned_of};

use super::halt::Halt;
use super::names::scoped;
use super::tokens::Tokens;
use crate::parse_fault::ParseWhy;
use crate::tree::{BasicType, TypeTree, TypedName};
use idl_lex::{Keyword, Kind, Sign};
use std::alloc::Global;
use tars_model::Boxed;

/// How many types may stand one inside the other, the innermost counted (docs/IDL.md, "Faults of the grammar").
pub const MAX_NESTING: u8 = 16;

/// The type that a word is.
fn basic_of(kind: Kind) -> Option<BasicType>
    ensures { result ≡ basic_of kind }
{
    match kind {
        Kind::Keyword(Keyword::Bool) => Some(BasicType::Bool),
        Kind::Keyword(Keyword::Byte) => Some(BasicType::Byte),
        Kind::Keyword(Keyword::Short) => Some(BasicType::Short),
        Kind::Keyword(Keyword::Int) => Some(BasicType::Int),
        Kind::Keyword(Keyword::Long) => Some(BasicType::Long),
        Kind::Keyword(Keyword::Float) => Some(BasicType::Float),
        Kind::Keyword(Keyword::Double) => Some(BasicType::Double),
        Kind::Keyword(Keyword::String) => Some(BasicType::Text),
        _ => None,
    }
}

/// The type that a word after `unsigned` is.
fn unsigned_of(kind: Kind) -> Option<BasicType>
    ensures { result ≡ unsigned_of kind }
{
    match kind {
        Kind::Keyword(Keyword::Byte) => Some(BasicType::UnsignedByte),
        Kind::Keyword(Keyword::Short) => Some(BasicType::UnsignedShort),
        Kind::Keyword(Keyword::Int) => Some(BasicType::UnsignedInt),
        _ => None,
    }
}

#[tactic(auto, unfolding(crate::specs::ReadSteps::basic_at, crate::specs::ReadSteps::means_at))]
fn basic(tokens: &mut Tokens<'_>) -> Result<TypeTree, Halt>
    ensures { Reads result tokens.new (basic_at tokens.old) }
{
    let word = tokens.first()?;
    let basic = basic_of(word.kind).ok_or(tokens.unexpected())?;
    tokens.skip();
    Ok(TypeTree::Basic {
        at: word.start,
        basic,
    })
}

#[tactic(auto, unfolding(crate::specs::ReadSteps::unsigned_at, crate::specs::ReadSteps::means_at))]
fn unsigned(tokens: &mut Tokens<'_>) -> Result<TypeTree, Halt>
    ensures { Reads result tokens.new (unsigned_at tokens.old) }
{
    let at = tokens.expect(Kind::Keyword(Keyword::Unsigned))?.start;
    let word = tokens.first()?;
    let basic = unsigned_of(word.kind).ok_or(tokens.unexpected())?;
    tokens.skip();
    Ok(TypeTree::Basic { at, basic })
}

/// Whether a token of the kind begins a type.
fn is_type_start(kind: Kind) -> bool
    ensures { result ≡ is_type_start kind }
{
    match kind {
        Kind::Ident => true,
        Kind::Keyword(
            Keyword::Bool
            | Keyword::Byte
            | Keyword::Short
            | Keyword::Int
            | Keyword::Long
            | Keyword::Float
            | Keyword::Double
            | Keyword::String
            | Keyword::Vector
            | Keyword::Map
            | Keyword::Unsigned,
        ) => true,
        _ => false,
    }
}

/// No type may stand here any more: tells whether one begins.
#[tactic(auto, unfolding(crate::specs::ReadSteps::no_room_at))]
fn no_room(tokens: &Tokens<'_>) -> Halt
    ensures { Fails result tokens.now (no_room_at tokens.now) }
{
    match tokens.first() {
        Ok(first) if is_type_start(first.kind) => Halt::Grammar(ParseWhy::TooDeep),
        _ => tokens.unexpected(),
    }
}

/// `vector < type >`
#[cycle(types)]
#[tactic(auto, unfolding(crate::specs::ReadSteps::vector_at))]
fn vector(alloc: Global, room: u8, tokens: &mut Tokens<'_>) -> Result<TypeTree, Halt>
    ensures { Reads result tokens.new (vector_at (type_at room) tokens.old) }
{
    let at = tokens.expect(Kind::Keyword(Keyword::Vector))?.start;
    tokens.expect(Kind::Sign(Sign::Less))?;
    let element = type_tree(alloc, room, tokens)?;
    tokens.expect(Kind::Sign(Sign::Greater))?;
    let element = Boxed::new(alloc, element)?;
    Ok(TypeTree::Vector { at, element })
}

/// `map < type , type >`
#[cycle(types)]
#[tactic(auto, unfolding(crate::specs::ReadSteps::map_at))]
fn map(alloc: Global, room: u8, tokens: &mut Tokens<'_>) -> Result<TypeTree, Halt>
    ensures { Reads result tokens.new (map_at (type_at room) tokens.old) }
{
    let at = tokens.expect(Kind::Keyword(Keyword::Map))?.start;
    tokens.expect(Kind::Sign(Sign::Less))?;
    let key = type_tree(alloc, room, tokens)?;
    tokens.expect(Kind::Sign(Sign::Comma))?;
    let value = type_tree(alloc, room, tokens)?;
    tokens.expect(Kind::Sign(Sign::Greater))?;
    let key = Boxed::new(alloc, key)?;
    let value = Boxed::new(alloc, value)?;
    Ok(TypeTree::Map { at, key, value })
}

/// A type with room for so many others inside it.
#[cycle(types)]
#[tactic(auto, using(crate::proofs::Parsing::Repeating::TokenSteps::type_by_kind), unfolding(crate::specs::ReadSteps::named_at))]
fn type_around(alloc: Global, room: u8, tokens: &mut Tokens<'_>) -> Result<TypeTree, Halt>
    ensures { Reads result tokens.new (type_with (type_at room) tokens.old) }
{
    match tokens.first_kind() {
        Some(Kind::Keyword(Keyword::Vector)) => vector(alloc, room, tokens),
        Some(Kind::Keyword(Keyword::Map)) => map(alloc, room, tokens),
        Some(Kind::Keyword(Keyword::Unsigned)) => unsigned(tokens),
        Some(Kind::Ident) => Ok(TypeTree::Named(scoped(tokens)?)),
        _ => basic(tokens),
    }
}

/// A type, where there is room for so many, one inside the other.
#[cycle(types)]
pub(super) fn type_tree(alloc: Global, room: u8, tokens: &mut Tokens<'_>) -> Result<TypeTree, Halt>
    ensures { Reads result tokens.new (type_at room tokens.old) }
{
    if room == 0 {
        return Err(no_room(tokens));
    }
    type_around(alloc, room - 1, tokens)
}

/// `type ident`
#[tactic(auto, unfolding(crate::specs::ReadSteps::typed_at))]
pub(super) fn typed(alloc: Global, tokens: &mut Tokens<'_>) -> Result<TypedName, Halt>
    ensures { Reads result tokens.new (typed_at nesting_limit tokens.old) }
{
    let ty = type_tree(alloc, MAX_NESTING, tokens)?;
    let name = tokens.span(Kind::Ident)?;
    Ok(TypedName { ty, name })
}

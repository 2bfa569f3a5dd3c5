//! Literals that fit a type.

ghost use Rattle.std.specs.Prelude.{◌≡◌, ◌&&◌, IfOk};
ghost use Rattle.std.specs.List.{list_any};
ghost use Rattle.std.specs.Str.{bytes_eq};
ghost use Rattle.idl_parse.specs.TreeSpans.{IfThere, LiteralIn, NameIn, NumberIn, ScopedIn, StandsAt, TypeIn, kind_of};
ghost use Rattle.idl_parse.specs.declared.tree.type_tree.TypeTree.{out-TypeTree};
ghost use Rattle.idl_lex.specs.Meanings.{whole_number, plain_text};
ghost use Rattle.idl_lex.specs.declared.kind.Kind.TheVariants as kinds;
ghost use Rattle.idl_scene.specs.Items.{word, word as word_at};
ghost use Rattle.idl_scene.specs.Types.{meaning_of};
ghost use Rattle.idl_scene.specs.Known.{enumerators_of};
ghost use Rattle.idl_scene.specs.Literals as spec;
ghost use Rattle.idl_scene.specs.KnownSteps.{meant};
ghost use Rattle.idl_scene.specs.NumberSteps.{long_of};

use crate::known::Meaning;
use crate::scene::Scene;
use crate::types::{first_of_name, is_enum};
use idl_lex::{Span, plain_text};
use idl_parse::tree::{BasicType, Literal, LiteralWord, ScopedName, TypeTree};
use std::alloc::{AllocError, Global};

/// Where a literal begins.
pub fn literal_start(literal: Literal) -> u32
    ensures { result ≡ spec.literal_start literal }
{
    match literal {
        Literal::Word { span, .. } => span.start,
        Literal::Named(name) => first_of_name(name),
    }
}

/// Whether a number is one of the type's.
fn is_number_of_word(basic: BasicType, number: i64) -> bool
    ensures { result ≡ spec.is_number_of_word basic number }
{
    match basic {
        BasicType::Byte => i8::try_from(number).is_ok(),
        BasicType::Short => i16::try_from(number).is_ok(),
        BasicType::Int => i32::try_from(number).is_ok(),
        BasicType::Long => true,
        BasicType::UnsignedByte => u8::try_from(number).is_ok(),
        BasicType::UnsignedShort => u16::try_from(number).is_ok(),
        BasicType::UnsignedInt => u32::try_from(number).is_ok(),
        BasicType::Bool | BasicType::Float | BasicType::Double | BasicType::Text => false,
    }
}

/// Whether an i64 is a number of the type; of an enum those of int.
fn fits_long(ty: &TypeTree, number: i64, scene: &Scene<'_, '_>) -> bool
    requires { TypeIn scene.now.text ty.now }
    ensures { result ≡ spec.fits_number scene.now (out-TypeTree ty.now) number }
{
    match ty {
        TypeTree::Basic { basic, .. } => is_number_of_word(*basic, number),
        TypeTree::Named(name) => is_enum(scene.meaning(*name)) && i32::try_from(number).is_ok(),
        _ => false,
    }
}

fn is_text(ty: &TypeTree) -> bool
    ensures { result ≡ spec.is_text (out-TypeTree ty.now) }
{
    matches!(
        ty,
        TypeTree::Basic {
            basic: BasicType::Text,
            ..
        }
    )
}

fn is_bool(ty: &TypeTree) -> bool
    ensures { result ≡ spec.is_bool (out-TypeTree ty.now) }
{
    matches!(
        ty,
        TypeTree::Basic {
            basic: BasicType::Bool,
            ..
        }
    )
}

/// Whether a text has at most so many bytes, if there is a limit.
fn is_short(most: Option<usize>, bytes: &[u8]) -> bool
    ensures { result ≡ spec.is_short most bytes.now }
{
    match most {
        Some(most) => bytes.len() <= most,
        None => true,
    }
}

/// Whether the enum that a name means has this enumerator.
fn has_enumerator<'a>(meaning: Option<&Meaning<'a>>, name: &'a [u8]) -> bool
    ensures { result ≡ list_any (bytes_eq name.now) (enumerators_of (meant meaning.entry)) }
{
    match meaning {
        Some(Meaning::Enum(names)) => names.contains(name),
        _ => false,
    }
}

/// Whether an enumerator stands alone, or after the name of its enum.
fn names_enum(scene: &Scene<'_, '_>, of: ScopedName, scope: Option<Span>) -> bool
    requires of { ScopedIn scene.now.text of }
    requires scope { IfThere (NameIn scene.now.text) scope }
    ensures { result ≡ spec.names_enum scene.now of scope }
{
    match scope {
        Some(scope) => scene.word(scope) == scene.word(of.name),
        None => true,
    }
}

/// Whether a name is that of an enumerator of the enum of another name.
fn fits_enum(of: ScopedName, name: ScopedName, scene: &Scene<'_, '_>) -> bool
    requires of { ScopedIn scene.now.text of }
    requires name { ScopedIn scene.now.text name }
    ensures { result ≡ (spec.names_enum scene.now of name.scope && list_any (bytes_eq (word scene.now.text name.name)) (enumerators_of (meaning_of scene.now of))) }
{
    let word = scene.word(name.name);
    names_enum(scene, of, name.scope) && has_enumerator(scene.meaning(of), word)
}

/// Whether a name is that of an enumerator of the type.
fn fits_name(ty: &TypeTree, name: ScopedName, scene: &Scene<'_, '_>) -> bool
    requires ty { TypeIn scene.now.text ty.now }
    requires name { ScopedIn scene.now.text name }
    ensures { result ≡ spec.fits_name scene.now (out-TypeTree ty.now) name }
{
    match ty {
        TypeTree::Named(of) => fits_enum(*of, name, scene),
        _ => false,
    }
}

/// Whether a number fits the type.
fn fits_number(ty: &TypeTree, span: Span, scene: &Scene<'_, '_>) -> bool
    requires ty { TypeIn scene.now.text ty.now }
    requires span { NumberIn scene.now.text span }
    ensures { result ≡ spec.fits_number scene.now (out-TypeTree ty.now) (whole_number (word scene.now.text span)) }
{
    match scene.number(span) {
        Some(number) => fits_long(ty, number, scene),
        None => false,
    }
}

/// Whether a text fits the type.
fn fits_text(
    alloc: Global,
    ty: &TypeTree,
    span: Span,
    most: Option<usize>,
    scene: &Scene<'_, '_>,
) -> Result<bool, AllocError>
    requires { StandsAt scene.now.text kinds.Text span }
    ensures { IfOk result (λ fits. fits ≡ (spec.is_text (out-TypeTree ty.now) && spec.is_short most (plain_text (word scene.now.text span)))) }
{
    let bytes = plain_text(alloc, span.slice(scene.text))?;
    Ok(is_text(ty) && is_short(most, bytes.as_slice()))
}

/// Whether a literal of one token fits the type.
fn fits_word(
    alloc: Global,
    ty: &TypeTree,
    word: LiteralWord,
    span: Span,
    most: Option<usize>,
    scene: &Scene<'_, '_>,
) -> Result<bool, AllocError>
    requires ty { TypeIn scene.now.text ty.now }
    requires span { StandsAt scene.now.text (kind_of word) span }
    ensures { IfOk result (λ fits. fits ≡ spec.fits_word scene.now most (out-TypeTree ty.now) word (word_at scene.now.text span)) }
{
    match word {
        LiteralWord::Number => Ok(fits_number(ty, span, scene)),
        LiteralWord::Fraction => Ok(false),
        LiteralWord::Text => fits_text(alloc, ty, span, most, scene),
        LiteralWord::True => Ok(is_bool(ty)),
        LiteralWord::False => Ok(is_bool(ty)),
    }
}

/// Whether a literal may be given to a type. A text has at most so many bytes, if there is a limit.
pub fn fits_literal(
    alloc: Global,
    ty: &TypeTree,
    literal: Literal,
    most: Option<usize>,
    scene: &Scene<'_, '_>,
) -> Result<bool, AllocError>
    requires ty { TypeIn scene.now.text ty.now }
    requires literal { LiteralIn scene.now.text literal }
    ensures { IfOk result (λ fits. fits ≡ spec.fits_literal scene.now most (out-TypeTree ty.now) literal) }
{
    match literal {
        Literal::Word { word, span } => fits_word(alloc, ty, word, span, most, scene),
        Literal::Named(name) => Ok(fits_name(ty, name, scene)),
    }
}

//! Values as they are written.

ghost use Rattle.std.specs.Prelude.{◌≡◌, true, IfOk};
ghost use Rattle.tars_model.specs.Values.{is_unsigned};
ghost use Rattle.tars_model.specs.declared.ty.Ty.{out-Ty};
ghost use Rattle.idl_lex.specs.Meanings.{whole_number};
ghost use Rattle.idl_parse.specs.TreeSpans.{IfThere, NumberIn, StandsAt, LiteralIn, kind_of};
ghost use Rattle.idl_parse.specs.declared.tree.literal.Literal.TheVariants as literals;
ghost use Rattle.idl_scene.specs.Items.{word};
ghost use Rattle.idl_schema.specs.Reading.{IsLong, LiteralLong};
ghost use Rattle.idl_schema.specs.SchemaOf as spec;

use crate::place::Place;
use idl_lex::{Span, plain_text, whole_number};
use idl_parse::tree::{Literal, LiteralWord};
use std::alloc::{AllocError, Global};
use tars_model::{Item, Schema, Ty, Value, default_of};

/// The number at a span.
pub(crate) fn number(text: &[u8], span: Span) -> i64
    requires at { NumberIn text.now span }
    requires long { IsLong text.now span }
    ensures { result ≡ whole_number (word text.now span) }
{
    match whole_number(span.slice(text)) {
        Some(number) => number,
        None => 0,
    }
}

/// The number of the enumerator of a name, or 0.
fn number_named(name: &[u8], items: &[Item]) -> i32
    ensures { result ≡ spec.number_named name.now items.now }
{
    for item in items {
        if name == item.name.as_slice() {
            return item.number;
        }
    }
    0
}

/// The enumerators of an enum; none of another type.
fn items_of_type<'s>(schema: &'s Schema, ty: &Ty) -> &'s [Item]
    ensures { result.now ≡ spec.items_of_type schema.now (out-Ty ty.now) }
{
    match ty {
        Ty::Enum(number) => schema.items_at(*number),
        _ => &[],
    }
}

fn word_value(
    alloc: Global,
    text: &[u8],
    form: LiteralWord,
    span: Span,
) -> Result<Value, AllocError>
    requires at { LiteralIn text.now (literals.Word form span) }
    requires long { LiteralLong text.now (literals.Word form span) }
    ensures { IfOk result (λ v. v ≡ spec.word_value form (word text.now span)) }
{
    match form {
        LiteralWord::Number => Ok(Value::Num(number(text, span))),
        LiteralWord::Fraction => Ok(Value::Num(0)),
        LiteralWord::Text => Ok(Value::Text(plain_text(alloc, span.slice(text))?)),
        LiteralWord::True => Ok(Value::Bool(true)),
        LiteralWord::False => Ok(Value::Bool(false)),
    }
}

/// The value that is written for a type.
pub(crate) fn literal_value(
    alloc: Global,
    place: &Place<'_, '_>,
    ty: &Ty,
    literal: Literal,
) -> Result<Value, AllocError>
    requires at { LiteralIn place.now.text literal }
    requires long { LiteralLong place.now.text literal }
    ensures { IfOk result (λ v. v ≡ spec.literal_value place.now ty.now literal) }
{
    match literal {
        Literal::Word { word, span } => word_value(alloc, place.text, word, span),
        Literal::Named(name) => {
            let items = items_of_type(&place.building.schema, ty);
            Ok(Value::Num(i64::from(number_named(place.word(name.name), items))))
        }
    }
}

/// The default of a member: what is written, or that of its type.
pub(crate) fn default_value(
    alloc: Global,
    place: &Place<'_, '_>,
    ty: &Ty,
    default: Option<Literal>,
) -> Result<Value, AllocError>
    requires at { IfThere (LiteralIn place.now.text) default }
    requires long { IfThere (LiteralLong place.now.text) default }
    ensures { IfOk result (λ v. v ≡ spec.default_value place.now ty.now default) }
{
    match default {
        Some(literal) => literal_value(alloc, place, ty, literal),
        None => default_of(alloc, &place.building.schema, ty),
    }
}

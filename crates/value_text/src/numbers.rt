//! Truth values and numbers.

ghost use Rattle.std.specs.Prelude.{◌≡◌, ◌≤◌, length, max, Option, IfSome};
ghost use Rattle.std.specs.List.{prefix_len};
ghost use Rattle.std.specs.Char.{is_digit};
ghost use Rattle.idl_lex.specs.Bytes.{begins, is_word_byte};
ghost use Rattle.tars_model.specs.Values.{is_number_of};
ghost use Rattle.tars_model.specs.declared.ty.Ty.{out-Ty};
ghost use Rattle.value_text.specs.ReadSteps as spec;
ghost use Rattle.value_text.specs.Spelling.{number_named as number_named_of};
ghost use Rattle.value_text.specs.ReadSteps.{Reads, ReadsAs};

use crate::cursor::Cursor;
use crate::halt::Halt;
use crate::value_fault::ValueWhy;
use idl_lex::whole_number;
use tars_model::{Item, Schema, Ty, Value, fits};

#[tactic(auto, unfolding(crate::specs::ReadSteps::truth_at))]
pub(crate) fn read_truth(cursor: &mut Cursor<'_>) -> Result<Value, Halt>
    ensures { Reads result cursor.new (spec.truth_at cursor.old) }
{
    match cursor.rest() {
        [b't', ..] => {
            cursor.word(b"true")?;
            Ok(Value::Bool(true))
        }
        _ => {
            cursor.word(b"false")?;
            Ok(Value::Bool(false))
        }
    }
}

/// How many digits stand at the start.
fn digits_len(bytes: &[u8]) -> usize
    ensures len { result ≡ prefix_len (λ c. is_digit c 10) bytes.now }
    ensures within { result ≤ length bytes.now }
{
    bytes
        .iter()
        .take_while(|byte| char::from(**byte).is_digit(10))
        .count()
}

/// How many digits a number has at the start: a leading zero is all of it.
fn natural_len(bytes: &[u8]) -> usize
    ensures len { result ≡ spec.natural_len bytes.now }
    ensures within { result ≤ length bytes.now }
{
    match bytes {
        [b'0', ..] => 1,
        _ => digits_len(bytes),
    }
}

/// The same after a minus, where no zero leads.
fn positive_len(bytes: &[u8]) -> usize
    ensures len { result ≡ spec.positive_len bytes.now }
    ensures within { result ≤ length bytes.now }
{
    match bytes {
        [b'0', ..] => 0,
        _ => digits_len(bytes),
    }
}

/// The bytes of a number.
#[tactic(auto, unfolding(crate::specs::ReadSteps::number_word_at))]
fn number_word<'a>(cursor: &mut Cursor<'a>) -> Result<&'a [u8], Halt>
    ensures { ReadsAs (λ word. word.now) result cursor.new (spec.number_word_at cursor.old) }
{
    let start = cursor.rest();
    let (body, digits) = match start {
        [b'-', body @ ..] => (body, positive_len(body)),
        _ => (start, natural_len(start)),
    };
    if digits == 0 {
        cursor.go_to(body);
        return Err(cursor.unexpected());
    }
    let (word, rest) = start.split_at(start.len() - body.len() + digits);
    cursor.go_to(rest);
    Ok(word)
}

/// A whole number of 64 bits.
#[tactic(auto, unfolding(crate::specs::ReadSteps::integer_at), using(crate::proofs::NumberLaws::word_form))]
fn integer(cursor: &mut Cursor<'_>) -> Result<i64, Halt>
    ensures { Reads result cursor.new (spec.integer_at cursor.old) }
{
    let start = cursor.rest();
    let word = number_word(cursor)?;
    match whole_number(word) {
        Some(number) => Ok(number),
        None => {
            cursor.go_to(start);
            Err(Halt::Bad(ValueWhy::Range))
        }
    }
}

/// The number of the first enumerator of the name.
#[tactic(auto, unfolding(crate::specs::Spelling::number_named))]
fn number_named(items: &[Item], name: &[u8]) -> Option<i32>
    ensures { result ≡ number_named_of items.now name.now }
{
    let mut left = items;
    while let [item, rest @ ..] = left {
        if item.name.as_slice() == name {
            return Some(item.number);
        }
        left = rest;
    }
    None
}

/// How many bytes the word and the name begin with alike.
#[tactic(auto, using(crate::proofs::NumberLaws::no_word, crate::proofs::NumberLaws::no_name))]
fn common_len(word: &[u8], name: &[u8]) -> usize
    ensures len { result ≡ spec.common_len word.now name.now }
    ensures within { result ≤ length word.now }
{
    let mut len = 0;
    let mut word_left = word;
    let mut name_left = name;
    while let ([second, word_rest @ ..], [first, name_rest @ ..]) = (word_left, name_left) {
        if first != second {
            return len;
        }
        len += 1;
        word_left = word_rest;
        name_left = name_rest;
    }
    len
}

/// How many bytes of the word begin some enumerator's name.
fn longest_begun(items: &[Item], word: &[u8]) -> usize
    ensures len { result ≡ spec.longest_begun items.now word.now }
    ensures within { result ≤ length word.now }
{
    let mut longest = 0;
    for item in items {
        longest = longest.max(common_len(word, &item.name));
    }
    longest
}

fn word_len(bytes: &[u8]) -> usize
    ensures len { result ≡ spec.word_len bytes.now }
    ensures within { result ≤ length bytes.now }
{
    bytes
        .iter()
        .take_while(|byte| byte.is_ascii_alphanumeric() || **byte == b'_')
        .count()
}

/// The number of the enumerator whose name stands at the start.
#[tactic(auto, unfolding(crate::specs::ReadSteps::name_at))]
fn named(cursor: &mut Cursor<'_>, items: &[Item]) -> Result<i64, Halt>
    ensures { Reads result cursor.new (spec.name_at items.now cursor.old) }
{
    let start = cursor.rest();
    let (word, rest) = start.split_at(word_len(start));
    match number_named(items, word) {
        Some(number) => {
            cursor.go_to(rest);
            Ok(i64::from(number))
        }
        None => {
            cursor.go_to(&start[longest_begun(items, word)..]);
            Err(cursor.unexpected())
        }
    }
}

/// The number of an enumerator's name, if the type is an enum and a letter comes, or that of digits.
fn said(cursor: &mut Cursor<'_>, schema: &Schema, ty: &Ty) -> Result<i64, Halt>
    ensures { Reads result cursor.new (spec.said_at schema.now (out-Ty ty.now) cursor.old) }
{
    match (ty, cursor.rest()) {
        (Ty::Enum(number), [first, ..]) if first.is_ascii_alphabetic() => {
            named(cursor, schema.items_at(*number))
        }
        _ => integer(cursor),
    }
}

#[tactic(auto, using(tars_model::proofs::ToldLaws::told_fits_num))]
fn is_number_of(schema: &Schema, ty: &Ty, number: i64) -> bool
    ensures { result ≡ is_number_of (out-Ty ty.now) number }
{
    fits(schema, ty, &Value::Num(number))
}

/// A number of the type.
#[tactic(auto, unfolding(crate::specs::ReadSteps::number_at))]
pub(crate) fn read_number(cursor: &mut Cursor<'_>, schema: &Schema, ty: &Ty) -> Result<Value, Halt>
    ensures { Reads result cursor.new (spec.number_at schema.now (out-Ty ty.now) cursor.old) }
{
    let start = cursor.rest();
    let number = said(cursor, schema, ty)?;
    if !is_number_of(schema, ty, number) {
        cursor.go_to(start);
        return Err(Halt::Bad(ValueWhy::Range));
    }
    Ok(Value::Num(number))
}

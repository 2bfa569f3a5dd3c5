//! Numbers and fractions.

ghost use Rattle.std.specs.Prelude.{◌≡◌, ◌≤◌, ◌^◌, nat_le, is_some, IfSome};
ghost use Rattle.std.specs.Str.Parse.{digits_value};
ghost use Rattle.idl_lex.specs.Forms.{IsForm, IsWhole, is_in_range, magnitude as magnitude_of};
ghost use Rattle.idl_lex.specs.Meanings.{negative as negative_of, whole_number as whole_number_of};
ghost use Rattle.idl_lex.specs.declared.kind.Kind.TheVariants.{Number as NumberKind};
ghost use Rattle.idl_lex.specs.LexSteps as spec;
ghost use Rattle.idl_lex.specs.LexSteps.{Gives};
ghost use Rattle.idl_lex.specs.LexSteps.{candidate_of};

use crate::candidate::Candidate;
use crate::kind::Kind;
use crate::runs::{Class, begins, split_run};

/// What a minus allows at most.
const MOST_BELOW: u64 = 1 << 63;

/// What is allowed at most without one.
const MOST: u64 = (1 << 63) - 1;

/// What the digits stand for, if all are digits of the base and stand for at most `most`.
#[tactic(auto, unfolding(crate::specs::LexSteps::is_at_most))]
fn value_at_most(digits: &[u8], base: u32, most: u64) -> Option<u64>
    requires low { 2 ≤ base }
    requires high { base ≤ 16 }
    ensures some { is_some result ≡ spec.is_at_most base most digits.now }
    ensures value { IfSome result (λ n. n ≡ digits_value base digits.now) }
{
    let mut value = 0u64;
    'digits: for byte in digits {
        let Some(digit) = char::from(*byte).to_digit(base) else {
            return None;
        };
        let next = u128::from(value) * u128::from(base) + u128::from(digit);
        if next > u128::from(most) {
            return None;
        }
        value = next as u64;
    }
    Some(value)
}

/// The number whose digits stand after `0x`.
#[tactic(auto, unfolding(crate::specs::LexSteps::hexadecimal_at))]
fn hexadecimal(digits: &[u8], most: u64) -> Candidate<'_>
    ensures { candidate_of result ≡ spec.hexadecimal_at most digits.now }
{
    let (digits, rest) = split_run(digits, Class::Hexadecimal);
    let in_range = value_at_most(digits, 16, most).is_some();
    Candidate {
        kind: Kind::Number,
        in_range,
        rest,
    }
}

/// The number or fraction that begins with decimal digits.
#[tactic(auto, unfolding(crate::specs::LexSteps::decimal_at))]
fn decimal(body: &[u8], most: u64) -> Candidate<'_>
    ensures { candidate_of result ≡ spec.decimal_at most body.now }
{
    let (whole, rest) = split_run(body, Class::Decimal);
    match rest {
        [b'.', part @ ..] if begins(part, Class::Decimal) => Candidate {
            kind: Kind::Fraction,
            in_range: true,
            rest: split_run(part, Class::Decimal).1,
        },
        _ => Candidate {
            kind: Kind::Number,
            in_range: value_at_most(whole, 10, most).is_some(),
            rest,
        },
    }
}

/// The number or fraction at the start, without a minus.
#[tactic(auto, unfolding(crate::specs::LexSteps::unsigned_at))]
fn unsigned(body: &[u8], most: u64) -> Option<Candidate<'_>>
    ensures { Gives candidate_of result (spec.unsigned_at most body.now) }
{
    match body {
        [b'0', b'x', digits @ ..] if begins(digits, Class::Hexadecimal) => {
            Some(hexadecimal(digits, most))
        }
        _ if begins(body, Class::Decimal) => Some(decimal(body, most)),
        _ => None,
    }
}

/// The longest number or fraction at the start.
#[tactic(auto, unfolding(crate::specs::LexSteps::number_at))]
pub fn number(bytes: &[u8]) -> Option<Candidate<'_>>
    ensures { Gives candidate_of result (spec.number_at bytes.now) }
{
    match bytes {
        [b'-', body @ ..] => unsigned(body, MOST_BELOW),
        _ => unsigned(bytes, MOST),
    }
}

/// What a number without its minus stands for, if it is at most `most`.
#[tactic(auto, unfolding(crate::specs::LexSteps::is_at_most))]
fn magnitude(body: &[u8], most: u64) -> Option<u64>
    requires { IsWhole body.now }
    ensures some { is_some result ≡ nat_le (magnitude_of body.now) most }
    ensures value { IfSome result (λ n. n ≡ magnitude_of body.now) }
{
    match body {
        [_, b'x', digits @ ..] => value_at_most(digits, 16, most),
        _ => value_at_most(body, 10, most),
    }
}

fn negative(magnitude: u64) -> i64
    requires { magnitude ≤ 2 ^ 63 }
    ensures { result ≡ negative_of magnitude }
{
    (-i128::from(magnitude)) as i64
}

/// The whole number that a number's bytes stand for, or `None` where that is out of an i64's range.
pub fn whole_number(word: &[u8]) -> Option<i64>
    requires { IsForm NumberKind word.now }
    ensures some { is_some result ≡ is_in_range word.now }
    ensures value { IfSome result (λ n. n ≡ whole_number_of word.now) }
{
    match word {
        [b'-', body @ ..] => magnitude(body, MOST_BELOW).map(negative),
        _ => magnitude(word, MOST).map(|n| n as i64),
    }
}

//! The numbers of a script (docs/SCRIPTS.md, "Names and numbers").

ghost use Rattle.std.specs.Prelude.{◌≡◌, ◌≤◌, true, nat_abs, nat_lt, IfSome};
ghost use Rattle.std.specs.List.{list_all};
ghost use Rattle.script_lines.specs.Meanings.{code_meant};
ghost use Rattle.script_lines.specs.Numbers.{is_digit, is_natural, is_number, within};
ghost use Rattle.script_lines.specs.NumberSteps.{natural, int_of};
ghost use Rattle.script_lines.specs.ScanSteps.{Gives};

use crate::scan::utf8;

fn has_only_digits(text: &[u8]) -> bool
    ensures { result ≡ list_all is_digit text.now }
{
    text.iter().all(|byte| byte.is_ascii_digit())
}

/// Whether the bytes are digits without a leading zero.
pub fn is_natural(text: &[u8]) -> bool
    ensures { result ≡ is_natural text.now }
{
    match text {
        [] => false,
        [first, rest @ ..] => has_only_digits(text) && (*first > b'0' || rest.is_empty()),
    }
}

/// Whether the bytes are digits without a leading zero, or such digits after a minus but for 0.
pub fn is_number(text: &[u8]) -> bool
    ensures { result ≡ is_number text.now }
{
    match text {
        [b'-', digits @ ..] => is_natural(digits) && digits != b"0".as_slice(),
        _ => is_natural(text),
    }
}

#[tactic(auto, unfolding(crate::specs::NumberSteps::natural))]
fn natural(text: &[u8]) -> Option<u32>
    ensures { Gives (λ n. n) result (natural text.now) }
{
    if !is_natural(text) {
        return None;
    }
    utf8(text)?.parse().ok()
}

/// The number that the digits mean, if it is in the range.
pub fn within(text: &[u8], low: u32, high: u32) -> Option<u32>
    ensures value { Gives (λ n. n) result (within low high text.now) }
    ensures within { IfSome result (λ n. n ≤ high) }
{
    let number = natural(text)?;
    (low..=high).contains(&number).then_some(number)
}

/// The int that a number's text means; none where the number is no int.
fn int_of(text: &[u8]) -> Option<i32>
    requires { is_number text.now ≡ true }
    ensures { result ≡ int_of text.now }
{
    utf8(text)?.parse().ok()
}

fn is_not_zero(number: i32) -> bool
    ensures { result ≡ nat_lt 0 (nat_abs number) }
{
    number != 0
}

/// The return code that a number's text means: an int, and not 0.
#[tactic(auto, unfolding(crate::specs::Meanings::code_meant))]
pub fn code_of(text: &[u8]) -> Option<i32>
    ensures { Gives (λ n. n) result (code_meant text.now) }
{
    if !is_number(text) {
        return None;
    }
    let number = int_of(text)?;
    is_not_zero(number).then_some(number)
}

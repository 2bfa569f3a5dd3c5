//! Entries in the order of their keys: numbers by value, texts byte by byte.

ghost use Rattle.std.specs.Prelude.{◌≡◌, ◌≤◌, true, map, length, IfSome, OnOk};
ghost use Rattle.std.specs.List.{insert};
ghost use Rattle.tars_model.specs.Values.{key_of, key_below, keys_rise, entry_key};
ghost use Rattle.tars_model.specs.declared.value.Value.{out-Value};
ghost use Rattle.tars_decode.specs.ReadingSteps.{place_of};

use std::alloc::AllocError;
use std::cmp::Ordering;
use tars_model::{Pair, Value};

/// Whether a key is below another one.
fn is_below(first: &Value, second: &Value) -> bool
    ensures { result ≡ key_below (key_of (out-Value first.now)) (key_of (out-Value second.now)) }
{
    match (first, second) {
        (Value::Num(first), Value::Num(second)) => first < second,
        (Value::Text(first), Value::Text(second)) => {
            matches!(first.as_slice().cmp(second.as_slice()), Ordering::Less)
        }
        _ => false,
    }
}

/// Where a key goes among those of entries, which rise; None where an entry has it. It looks from the end, so keys
/// that come in order go fast.
pub fn place(pairs: &[Pair], key: &Value) -> Option<usize>
    requires { keys_rise (map entry_key pairs.now) ≡ true }
    ensures place { result ≡ place_of (key_of (out-Value key.now)) (map entry_key pairs.now) }
    ensures within { IfSome result (λ at. at ≤ length pairs.now) }
{
    let mut at = pairs.len();
    while at > 0 {
        let last = &pairs[at - 1].key;
        if is_below(last, key) {
            return Some(at);
        }
        if !is_below(key, last) {
            return None;
        }
        at -= 1;
    }
    Some(0)
}

/// Puts an entry before those from a place on.
pub fn add(pairs: &mut Vec<Pair>, at: usize, pair: Pair) -> Result<(), AllocError>
    requires { at ≤ length pairs.old.items }
    ensures { OnOk result (pairs.new.items ≡ insert pairs.old.items at pair) }
{
    pairs.insert(at, pair)?;
    Ok(())
}

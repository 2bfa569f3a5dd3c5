//! Enumerators: their numbers.

ghost use Rattle.std.specs.Prelude.{◌≡◌};
ghost use Rattle.std.specs.List.{All};
ghost use Rattle.least_fault.specs.Least.{Notes};
ghost use Rattle.idl_parse.specs.TreeSpans.{IfThere, ItemIn, NumberIn};
ghost use Rattle.idl_scene.specs.Faults.{is_below};
ghost use Rattle.idl_scene.specs.Literals as spec;
ghost use Rattle.idl_scene.specs.Literals.{number_at, number_after};
ghost use Rattle.idl_scene.specs.NumberSteps.{int_of, int_of_option};
ghost use Rattle.idl_rules.specs.Conditions.{enumerator_rules};
ghost use Rattle.idl_rules.specs.JudgeSteps.{found_in};
ghost use Rattle.idl_rules.specs.PartSteps.{number_after_int, faults_of_number};

use idl_lex::Span;
use idl_parse::tree::EnumItem;
use idl_scene::{CheckWhy, Fault, Scene, note_if};

/// Where the number stands, or the name if there is none.
fn number_start(item: EnumItem) -> u32
    ensures { result ≡ spec.number_start item item.number }
{
    match item.number {
        Some(span) => span.start,
        None => item.name.start,
    }
}

fn int_of_long(number: Option<i64>) -> Option<i32>
    ensures { result ≡ int_of_option number }
{
    match number {
        Some(number) => i32::try_from(number).ok(),
        None => None,
    }
}

/// The number that is written, or else the next one, if it is an int.
#[tactic(auto, using(idl_scene::proofs::NumberLaws::int_of_long_is))]
fn number_at(scene: &Scene<'_, '_>, next: i64, number: Option<Span>) -> Option<i32>
    requires { IfThere (NumberIn scene.now.text) number }
    ensures { result ≡ int_of (number_at scene.now.text next number) }
{
    match number {
        Some(span) => int_of_long(scene.number(span)),
        None => i32::try_from(next).ok(),
    }
}

/// The number that comes next.
fn number_after(number: Option<i32>) -> i64
    ensures { result ≡ number_after_int number }
{
    match number {
        Some(number) => i64::from(number) + 1,
        None => 0,
    }
}

/// Judges an enumerator whose number is `next` if none is written. Returns the number that comes next.
fn judge_item(item: EnumItem, next: i64, scene: &Scene<'_, '_>, least: &mut Option<Fault>) -> i64
    requires { ItemIn scene.now.text item }
    ensures found { Notes is_below least.old least.new (faults_of_number scene.now item (number_at scene.now.text next item.number)) }
    ensures next { result ≡ number_after (number_at scene.now.text next item.number) }
{
    let number = number_at(scene, next, item.number);
    let at = number_start(item);
    note_if(
        least,
        number.is_none(),
        scene.file,
        at,
        CheckWhy::BadDefault,
    );
    number_after(number)
}

/// Judges the numbers of enumerators.
pub(crate) fn judge_items(items: &[EnumItem], scene: &Scene<'_, '_>, least: &mut Option<Fault>)
    requires { All (ItemIn scene.now.text) items.now }
    ensures { Notes is_below least.old least.new (found_in enumerator_rules scene.now items.now) }
{
    let mut next: i64 = 0;
    for item in items {
        next = judge_item(*item, next, scene, least);
    }
}

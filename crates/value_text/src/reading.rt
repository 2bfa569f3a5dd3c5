//! The value at the start of a text, and that of a whole text.

ghost use Rattle.std.specs.Prelude.{◌≡◌, ◌<◌, ◌≤◌, ◌^◌, ◌-◌, ◌++◌, ◌⊎◌, ℕ, true, List as Listed, length, drop, IfOk};
ghost use Rattle.tars_model.specs.Declarations.{Declared};
ghost use Rattle.tars_model.specs.Schemas.{IsSchema};
ghost use Rattle.tars_model.specs.Values.{fits};
ghost use Rattle.tars_model.specs.declared.ty.Ty.{Ty as Kind};
ghost use Rattle.tars_model.specs.declared.value.Value.{Value as Made};
ghost use Rattle.value_text.specs.Answers.{GivesValue, GivesWhole, GivesFault, IfBad, IsEnd};
ghost use Rattle.value_text.specs.Faults.{FaultOf, WholeFaultOf};
ghost use Rattle.value_text.specs.Printed.{has_bytes, printed};
ghost use Rattle.value_text.specs.Spelling.{Spells, IsWhole};
ghost use Rattle.value_text.specs.declared.value_fault.ValueWhy.{ValueWhy as Why};

use crate::cursor::Cursor;
use crate::halt::Halt;
use crate::value_fault::{ValueFault, ValueWhy};
use crate::values::read;
use std::alloc::Global;
use tars_model::{Schema, Ty, Value};

/// Where these bytes are left of a text.
fn place(text: &[u8], left: &[u8]) -> u32
    requires { length text.now < 2 ^ 32 }
    ensures { result ≡ length text.now - length left.now }
{
    text.len().saturating_sub(left.len()) as u32
}

/// Reads the value of the type that stands at the start of a text of fewer than 2^32 bytes, and tells how many bytes
/// it takes (docs/SCRIPTS.md, "Value text").
pub fn read_value(
    alloc: Global,
    schema: &Schema,
    ty: &Ty,
    text: &[u8],
) -> Result<(Value, usize), ValueFault>
    requires { length text.now < 2 ^ 32 }
    // The bytes that are taken say what is read.
    ensures spells { IfOk result (λ x. Spells schema.now ty.now x.0 text.now (drop x.1 text.now)) }
    ensures fits { IfOk result (λ x. fits schema.now ty.now x.0 ≡ true) }
    ensures bytes { IfOk result (λ x. has_bytes x.0 ≡ true) }
    ensures taken { IfOk result (λ x. x.1 ≤ length text.now) }
    // Whatever says a value is read, unless memory runs out.
    ensures only { (v : Made) (rest : Listed ℕ) → Spells schema.now ty.now v text.now rest
        → GivesValue result v (length text.now - length rest) }
    // What is printed for a value is read back, where no letter, digit or `_` follows.
    ensures back { (v : Made) (rest : Listed ℕ) → fits schema.now ty.now v ≡ true → has_bytes v ≡ true
        → IsEnd rest → text.now ≡ printed schema.now ty.now v ++ rest → GivesValue result v (length (printed schema.now ty.now v)) }
    // A fault that is returned is the text's, at its place and for its reason.
    ensures fault { IfBad result (λ at why. FaultOf schema.now ty.now text.now at why) }
{
    // By its rules a schema has a text for every type.
    let _ = schema.order();
    let mut cursor = Cursor::new(text);
    match read(alloc, text.len(), schema, ty, &mut cursor) {
        Ok(value) => Ok((value, text.len().saturating_sub(cursor.rest().len()))),
        Err(Halt::Bad(why)) => Err(ValueFault::Bad {
            at: place(text, cursor.rest()),
            why,
        }),
        Err(Halt::Memory) => Err(ValueFault::Memory),
    }
}

/// Reads the value of the type that a text of fewer than 2^32 bytes says, as a value file does: only spaces and line
/// feeds follow the value (docs/SCRIPTS.md, "Value text").
pub fn read_whole(alloc: Global, schema: &Schema, ty: &Ty, text: &[u8]) -> Result<Value, ValueFault>
    requires { length text.now < 2 ^ 32 }
    // The text says what is read.
    ensures spells { IfOk result (λ v. IsWhole schema.now ty.now v text.now) }
    ensures fits { IfOk result (λ v. fits schema.now ty.now v ≡ true) }
    ensures bytes { IfOk result (λ v. has_bytes v ≡ true) }
    // Whatever a text says is read, unless memory runs out.
    ensures only { (v : Made) → IsWhole schema.now ty.now v text.now → GivesWhole result v }
    // A fault that is returned is the text's, at its place and for its reason.
    ensures fault { IfBad result (λ at why. WholeFaultOf schema.now ty.now text.now at why) }
    // The fault of a text is returned, unless memory runs out.
    ensures refused { (at : ℕ) (why : Why) → WholeFaultOf schema.now ty.now text.now at why → GivesFault result at why }
{
    let (value, taken) = read_value(alloc, schema, ty, text)?;
    let mut after = Cursor::new(&text[taken..]);
    after.gap();
    if after.rest().is_empty() {
        Ok(value)
    } else {
        Err(ValueFault::Bad {
            at: place(text, after.rest()),
            why: ValueWhy::Unexpected,
        })
    }
}

/// What holds of every text: it begins with one value of a type at most, and one rest comes after it.
pub fn one_value()
    ensures { (d : Declared) (t : Kind) (text r s : Listed ℕ) (v w : Made) → Spells d t v text r → Spells d t w text s
        → (v ≡ w) × (r ≡ s) }
{}

/// What holds of every text: it begins with a value, or it has one fault and no other.
pub fn one_fault()
    ensures some { (d : Declared) (t : Kind) (text : Listed ℕ) → IsSchema d
        → ((v : Made) × (rest : Listed ℕ) × Spells d t v text rest) ⊎ ((at : ℕ) × (why : Why) × FaultOf d t text at why) }
    ensures not_both { (d : Declared) (t : Kind) (text rest : Listed ℕ) (v : Made) (at : ℕ) (why : Why) → Spells d t v text rest
        → FaultOf d t text at why → ⊥ }
    ensures one { (d : Declared) (t : Kind) (text : Listed ℕ) (at other : ℕ) (why reason : Why) → FaultOf d t text at why
        → FaultOf d t text other reason → (at ≡ other) × (why ≡ reason) }
{}

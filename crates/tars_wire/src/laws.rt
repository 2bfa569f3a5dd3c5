//! Laws of the grammar. The functions do nothing: each is its contract.

ghost use Rattle.std.specs.Prelude.{◌⊎◌, ◌≡◌, ◌<◌, ◌↔◌, ℕ, List, [], ◌++◌, length, All};
ghost use Rattle.tars_wire.specs.declared.wire_fault.WireFault.{WireFault};
ghost use Rattle.tars_wire.specs.Faults.{IsFault, HasFault};
ghost use Rattle.tars_wire.specs.Heads.{MAX_DEPTH, MAX_TAG, LONG_HEAD};
ghost use Rattle.wire_words.specs.Tree.{WireValue, WireFields};
ghost use Rattle.wire_words.specs.Spelling.{spelled_fields};
ghost use Rattle.tars_wire.specs.Spelled.{IsBody, Spelled, SpelledField};
ghost use Rattle.tars_wire.specs.Writable.{FieldsWritable};
ghost use Rattle.tars_wire.specs.Left.{Standing, Remaining, IsLeft};

use crate::head::{LONG_FORM, MAX_FIELD_TAG};
use crate::head_context::MAX_OPEN;
use crate::wire_fault::WireWhy;

/// The limits, as numbers.
pub fn limits()
    ensures depth { (MAX_OPEN ≡ 64) × (MAX_DEPTH ≡ 64) }
    ensures long_form { (LONG_FORM ≡ 15) × (LONG_HEAD ≡ 15) }
    ensures last_tag { (MAX_FIELD_TAG ≡ 255) × (MAX_TAG ≡ 255) }
{}

/// Bytes spell one list of fields at most.
#[tactic(auto, using(crate::proofs::Grammar::Extends::one_reading_law))]
pub fn one_reading()
    ensures { (room other_room : ℕ) (bytes : List ℕ) (fields others : WireFields) → Spelled room bytes fields → Spelled other_room bytes others → fields ≡ others }
{}

/// What is spelled for fields that a body can hold is a body with these fields.
#[tactic(auto, using(crate::proofs::Writing::Fields::spelled_law))]
pub fn spelled_is_body()
    ensures same_fields { (fields : WireFields) → FieldsWritable fields MAX_DEPTH 0 → All (λ byte. byte < 256) (spelled_fields fields) → Spelled MAX_DEPTH (spelled_fields fields) fields }
{}

/// No spelling of a field goes on from a spelling of a field, of whatever tag and value.
#[tactic(auto, using(crate::proofs::Grammar::Extends::no_prefix_law))]
pub fn no_spelling_begins_another()
    ensures { (room other_room tag other_tag : ℕ) (value other : WireValue) (bytes more : List ℕ) → SpelledField room tag value bytes → SpelledField other_room other_tag other (bytes ++ more) → more ≡ [] }
{}

/// Bytes are a body or they have a fault, never both, and no more than one fault.
pub fn one_outcome()
    ensures some { (bytes : List ℕ) → All (λ byte. byte < 256) bytes → IsBody bytes ⊎ HasFault bytes }
    ensures not_both { (bytes : List ℕ) → IsBody bytes → HasFault bytes → ⊥ }
    ensures one { (bytes : List ℕ) (fault other : WireFault) → All (λ byte. byte < 256) bytes → IsFault bytes fault → IsFault bytes other → fault ≡ other }
{}

/// The reason of a fault is `Short` exactly where its offset is the end of the bytes.
pub fn short_is_at_the_end()
    ensures { (bytes : List ℕ) (fault : WireFault) → IsFault bytes fault → ((fault.why ≡ WireWhy.Short) ↔ (fault.at ≡ length bytes)) }
{}

/// A cursor has one thing left at each open level. (`Cursor::head` tells that it has one.)
pub fn one_remainder()
    ensures { (cursor : Standing) (left other : List Remaining) → IsLeft cursor left → IsLeft cursor other → left ≡ other }
{}

//! Laws of hexadecimal texts. The function does nothing: it is its contract.

ghost use Rattle.std.specs.Prelude.{◌⊎◌, ◌≡◌, ℕ, List};
ghost use Rattle.hex_text.specs.HexText.{HexSpells, IsHexText, IsHexFault, HasHexFault};

/// A text spells bytes or has a fault, never both, and no more than one of either.
pub fn one_outcome()
    ensures some { (text : List ℕ) → IsHexText text ⊎ HasHexFault text }
    ensures not_both { (text : List ℕ) → IsHexText text → HasHexFault text → ⊥ }
    ensures one_spelling { (text a b : List ℕ) → HexSpells a text → HexSpells b text → a ≡ b }
    ensures one_fault { (text : List ℕ) (a b : ℕ) → IsHexFault text a → IsHexFault text b → a ≡ b }
{}

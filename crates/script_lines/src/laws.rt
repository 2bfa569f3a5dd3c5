//! What holds of every text.

ghost use Rattle.std.specs.Prelude.{◌≡◌, ◌⊎◌, ℕ, List as Listed};
ghost use Rattle.script_lines.specs.Forms.{Said, Says};
ghost use Rattle.script_lines.specs.Scripts.{IsScript, IsScriptFault, Script};
ghost use Rattle.script_lines.specs.declared.fault.ScriptFault.{ScriptFault as Fault};

/// A text is a script of one meaning or has one fault, and not both; and a line says at most one thing.
pub fn one_outcome()
    ensures some { (text : Listed ℕ) → ((script : Script) × IsScript text script) ⊎ ((fault : Fault) × IsScriptFault text fault) }
    ensures script { (text : Listed ℕ) (a b : Script) → IsScript text a → IsScript text b → a ≡ b }
    ensures fault { (text : Listed ℕ) (a b : Fault) → IsScriptFault text a → IsScriptFault text b → a ≡ b }
    ensures not_both { (text : Listed ℕ) (script : Script) (fault : Fault) → IsScript text script → ¬ (IsScriptFault text fault) }
    ensures line { (line : Listed ℕ) (a b : Said) → Says line a → Says line b → a ≡ b }
{}

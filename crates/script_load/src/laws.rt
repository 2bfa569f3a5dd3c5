//! What holds of loading, whatever the files hold.

ghost use Rattle.std.specs.Prelude.{◌≡◌, ℕ, List};
ghost use Rattle.script_load.specs.Loading.{LoadAnswer, Loads};
ghost use Rattle.tars_base.specs.Contents.{Held};

/// Whatever files hold, loading a script gives one answer, and no other.
pub fn one_answer()
    ensures some { (held : Held) (script : List ℕ) → (answer : LoadAnswer) × Loads held script answer }
    ensures only { (held : Held) (script : List ℕ) (a b : LoadAnswer) → Loads held script a → Loads held script b → a ≡ b }
{}

//! What holds of commands, whatever the files hold.

ghost use Rattle.std.specs.Prelude.{◌≡◌, ℕ, List};
ghost use Rattle.tars_base.specs.Contents.{Held};
ghost use Rattle.tars_command.specs.Due.{DueAnswer, Due, AskedOfBytes};

/// Whatever the words are and the files hold, one answer is due, and no other.
pub fn one_due_answer()
    ensures some { (held : Held) (words : List (List ℕ)) → AskedOfBytes held words
        → (answer : DueAnswer) × Due held words answer }
    ensures only { (held : Held) (words : List (List ℕ)) (a b : DueAnswer) → Due held words a
        → Due held words b → a ≡ b }
{}

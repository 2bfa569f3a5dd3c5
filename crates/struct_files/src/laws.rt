//! What holds of the commands on a struct, whatever the files hold.

ghost use Rattle.std.specs.Prelude.{◌≡◌, ℕ, List};
ghost use Rattle.struct_files.specs.Answers.{TextAnswer};
ghost use Rattle.struct_files.specs.Comparing.{ComparesFiles};
ghost use Rattle.struct_files.specs.Decoding.{DecodesFile};
ghost use Rattle.struct_files.specs.Encoding.{EncodesFile};
ghost use Rattle.schema_kept.specs.Written.{HoldBytes};
ghost use Rattle.tars_base.specs.Contents.{Held};

/// Whatever bytes the files hold, encoding the values of a struct gives one answer, and no other.
pub fn one_encoding()
    ensures some { (held : Held) (file home name values : List ℕ) → HoldBytes (held 0)
        → (answer : TextAnswer) × EncodesFile held file home name values answer }
    ensures only { (held : Held) (file home name values : List ℕ) (a b : TextAnswer)
        → EncodesFile held file home name values a → EncodesFile held file home name values b → a ≡ b }
{}

/// Whatever the files hold, decoding the values of a struct gives one answer, and no other.
pub fn one_decoding()
    ensures some { (held : Held) (file home name hex : List ℕ)
        → (answer : TextAnswer) × DecodesFile held file home name hex answer }
    ensures only { (held : Held) (file home name hex : List ℕ) (a b : TextAnswer)
        → DecodesFile held file home name hex a → DecodesFile held file home name hex b → a ≡ b }
{}

/// Whatever the files hold, comparing two versions of a struct gives one answer, and no other.
pub fn one_comparison()
    ensures some { (held : Held) (old new home name : List ℕ)
        → (answer : TextAnswer) × ComparesFiles held old new home name answer }
    ensures only { (held : Held) (old new home name : List ℕ) (a b : TextAnswer)
        → ComparesFiles held old new home name a → ComparesFiles held old new home name b → a ≡ b }
{}

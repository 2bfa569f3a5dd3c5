//! What holds of loading, whatever the files hold.

ghost use Rattle.std.specs.Prelude.{◌≡◌, ℕ, List};
ghost use Rattle.schema_files.specs.FileReading.{FileAnswer, ReadsFile};
ghost use Rattle.schema_files.specs.SchemaLoading.{SchemaAnswer, LoadsSchema};
ghost use Rattle.tars_base.specs.Contents.{Contents};

/// Whatever files hold, reading a file gives one answer, and no other.
pub fn one_file_answer()
    ensures some { (files : Contents) (name : List ℕ) → (answer : FileAnswer) × ReadsFile files name answer }
    ensures only { (files : Contents) (name : List ℕ) (a b : FileAnswer) → ReadsFile files name a
        → ReadsFile files name b → a ≡ b }
{}

/// Whatever files hold, loading an interface file gives one answer, and no other.
pub fn one_schema_answer()
    ensures some { (files : Contents) (file : List ℕ) → (answer : SchemaAnswer) × LoadsSchema files file answer }
    ensures only { (files : Contents) (file : List ℕ) (a b : SchemaAnswer) → LoadsSchema files file a
        → LoadsSchema files file b → a ≡ b }
{}

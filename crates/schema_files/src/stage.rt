ghost use Rattle.std.specs.Prelude.{Some};
ghost use Rattle.schema_files.specs.Refusals.{stage_text};

use std::fmt;

/// What judges a text.
#[derive(Clone, Copy)]
pub enum Stage {
    /// How long the text is.
    Size,
    Lex,
    Parse,
    Check,
    Script,
    Value,
    Hex,
    /// Whether the files declare the struct that is asked for.
    Struct,
}

impl fmt::Display for Stage {
    ghost output = { λ stage. Some (stage_text stage) };

    fn fmt<W: fmt::Write>(&self, f: &mut fmt::Formatter<W>) -> fmt::Result {
        match self {
            Stage::Size => f.write_str("size"),
            Stage::Lex => f.write_str("lex"),
            Stage::Parse => f.write_str("parse"),
            Stage::Check => f.write_str("check"),
            Stage::Script => f.write_str("script"),
            Stage::Value => f.write_str("value"),
            Stage::Hex => f.write_str("hex"),
            Stage::Struct => f.write_str("struct"),
        }
    }
}

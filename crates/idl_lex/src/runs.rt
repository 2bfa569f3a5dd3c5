//! Runs of bytes of one class.

ghost use Rattle.std.specs.Prelude.{◌≡◌, ◌≤◌, length};
ghost use Rattle.std.specs.List.{prefix_len};
ghost use Rattle.idl_lex.specs.Bytes.{begins};
ghost use Rattle.idl_lex.specs.LexSteps as spec;

/// A class of bytes (docs/IDL.md, "Tokens").
#[derive(Clone, Copy)]
pub enum Class {
    /// Letters, digits and `_`.
    Word,
    /// Decimal digits.
    Decimal,
    /// Hexadecimal digits of either case.
    Hexadecimal,
    /// Every byte but a line feed.
    Line,
    /// Letters and `_`.
    LetterOrLow,
}

pub fn is_in(class: Class, byte: u8) -> bool
    ensures { result ≡ spec.is_in class byte }
{
    match class {
        Class::Word => byte.is_ascii_alphanumeric() || byte == b'_',
        Class::Decimal => char::from(byte).is_digit(10),
        Class::Hexadecimal => char::from(byte).is_digit(16),
        Class::Line => byte != b'\n',
        Class::LetterOrLow => byte.is_ascii_alphabetic() || byte == b'_',
    }
}

/// How many bytes at the start are of the class.
fn run_len(bytes: &[u8], class: Class) -> usize
    ensures len { result ≡ prefix_len (spec.is_in class) bytes.now }
    ensures within { result ≤ length bytes.now }
{
    bytes.iter().take_while(|b| is_in(class, **b)).count()
}

/// The longest prefix of bytes of the class, and what stands after it. Where a letter stands at the start, that of
/// `Class::Word` is the identifier or keyword there.
#[tactic(auto, using(crate::proofs::Lexing::Words::RunLaws::runs))]
pub fn split_run(bytes: &[u8], class: Class) -> (&[u8], &[u8])
    ensures run { result.0.now ≡ spec.run (spec.is_in class) bytes.now }
    ensures rest { result.1.now ≡ spec.after_run (spec.is_in class) bytes.now }
{
    bytes.split_at(run_len(bytes, class))
}

/// Whether a byte of the class stands at the start.
pub fn begins(bytes: &[u8], class: Class) -> bool
    ensures { result ≡ begins (spec.is_in class) bytes.now }
{
    match bytes {
        [first, ..] => is_in(class, *first),
        [] => false,
    }
}

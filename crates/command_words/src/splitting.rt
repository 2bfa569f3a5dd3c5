//! The word at the start of a text.

ghost use Rattle.std.specs.Prelude.{◌≡◌, ◌≤◌, length};
ghost use Rattle.std.specs.List.{prefix_len};
ghost use Rattle.idl_lex.specs.Bytes.{is_word_byte};
ghost use Rattle.idl_lex.specs.LexSteps.{Gives};
ghost use Rattle.command_words.specs.WordSteps as spec;

/// How many letters, digits and `_` stand at the start.
fn word_len(bytes: &[u8]) -> usize
    ensures len { result ≡ prefix_len is_word_byte bytes.now }
    ensures within { result ≤ length bytes.now }
{
    bytes
        .iter()
        .take_while(|byte| byte.is_ascii_alphanumeric() || **byte == b'_')
        .count()
}

/// The identifier or keyword at the start, and what stands after it.
#[tactic(auto, using(idl_lex::proofs::Lexing::Words::RunLaws::runs))]
pub(crate) fn split_word(bytes: &[u8]) -> Option<(&[u8], &[u8])>
    ensures { Gives (λ split. (split.0.now, split.1.now)) result (spec.split_word bytes.now) }
{
    match bytes {
        [first, ..] if first.is_ascii_alphabetic() => Some(bytes.split_at(word_len(bytes))),
        _ => None,
    }
}

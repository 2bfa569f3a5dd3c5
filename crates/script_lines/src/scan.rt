//! Readers of the words of a line. Each takes a prefix of the bytes, and returns it with the bytes after it.

ghost use Rattle.std.specs.Prelude.{◌≡◌, ◌<◌, ◌≤◌, ◌==◌, length, position, reverse, IfSome};
ghost use Rattle.std.specs.List.{prefix_len};
ghost use Rattle.script_lines.specs.Lines.{is_space, is_word_byte, after_spaces, before_spaces, content_of, next_word};
ghost use Rattle.script_lines.specs.ScanSteps.{Gives, after, word_before, utf8, only_word, two_words, something};

use std::str;

/// How many spaces stand at the start.
fn spaces_before(bytes: &[u8]) -> usize
    ensures len { result ≡ prefix_len is_space bytes.now }
    ensures within { result ≤ length bytes.now }
{
    bytes.iter().take_while(|byte| **byte == b' ').count()
}

/// How many spaces stand at the end.
fn spaces_after(bytes: &[u8]) -> usize
    ensures len { result ≡ prefix_len is_space (reverse bytes.now) }
    ensures within { result ≤ length bytes.now }
{
    bytes.iter().rev().take_while(|byte| **byte == b' ').count()
}

/// How many bytes stand before the first space.
fn word_len(bytes: &[u8]) -> usize
    ensures len { result ≡ prefix_len is_word_byte bytes.now }
    ensures within { result ≤ length bytes.now }
{
    bytes.iter().take_while(|byte| **byte != b' ').count()
}

/// What stands after the spaces at the start.
fn skip_spaces(bytes: &[u8]) -> &[u8]
    ensures { result.now ≡ after_spaces bytes.now }
{
    &bytes[spaces_before(bytes)..]
}

/// A line without the spaces at its ends.
#[tactic(auto, unfolding(crate::specs::Lines::content_of))]
pub fn content(line: &[u8]) -> &[u8]
    ensures { result.now ≡ content_of line.now }
{
    skip_spaces(&line[..line.len() - spaces_after(line)])
}

/// The first word, and what stands after it and the spaces there.
#[tactic(auto, unfolding(crate::specs::Lines::next_word))]
pub fn next_word(bytes: &[u8]) -> Option<(&[u8], &[u8])>
    ensures { Gives (λ x. (x.0.now, x.1.now)) result (next_word bytes.now) }
{
    if bytes.is_empty() {
        return None;
    }
    let (word, rest) = bytes.split_at(word_len(bytes));
    Some((word, skip_spaces(rest)))
}

/// The one word of the bytes.
#[tactic(auto, unfolding(crate::specs::ScanSteps::only_word))]
pub fn only_word(bytes: &[u8]) -> Option<&[u8]>
    ensures { Gives (λ word. word.now) result (only_word bytes.now) }
{
    let (word, rest) = next_word(bytes)?;
    rest.is_empty().then_some(word)
}

/// The two words of the bytes.
#[tactic(auto, unfolding(crate::specs::ScanSteps::two_words))]
pub fn two_words(bytes: &[u8]) -> Option<(&[u8], &[u8])>
    ensures { Gives (λ x. (x.0.now, x.1.now)) result (two_words bytes.now) }
{
    let (first, rest) = next_word(bytes)?;
    Some((first, only_word(rest)?))
}

/// The bytes, if there are any.
#[tactic(auto, unfolding(crate::specs::ScanSteps::something))]
pub fn something(bytes: &[u8]) -> Option<&[u8]>
    ensures { Gives (λ bytes. bytes.now) result (something bytes.now) }
{
    (!bytes.is_empty()).then_some(bytes)
}

/// What stands after the literal.
#[tactic(auto, unfolding(crate::specs::ScanSteps::after))]
fn after<'a>(text: &'a [u8], literal: &[u8]) -> Option<&'a [u8]>
    ensures { Gives (λ rest. rest.now) result (after literal.now text.now) }
{
    text.strip_prefix(literal)
}

/// Where the byte stands first.
pub fn find(text: &[u8], byte: u8) -> Option<usize>
    ensures value { result ≡ position (λ b. b == byte) text.now }
    ensures within { IfSome result (λ at. at < length text.now) }
{
    text.iter().position(|b| *b == byte)
}

/// The word that ends where the literal begins, and what stands after the literal. The literal's
/// first byte is one that no such word has.
#[tactic(auto, unfolding(crate::specs::ScanSteps::word_before))]
pub fn word_before<'a>(text: &'a [u8], literal: &[u8]) -> Option<(&'a [u8], &'a [u8])>
    requires { 0 < length literal.now }
    ensures { Gives (λ x. (x.0.now, x.1.now)) result (word_before literal.now text.now) }
{
    let (word, rest) = text.split_at(find(text, literal[0])?);
    Some((word, after(rest, literal)?))
}

/// The bytes as a text, if they are one.
#[tactic(auto, unfolding(crate::specs::ScanSteps::utf8), using(crate::proofs::Texts::utf8_is))]
pub fn utf8(bytes: &[u8]) -> Option<&str>
    ensures { Gives (λ text. text.now) result (utf8 bytes.now) }
{
    str::from_utf8(bytes).ok()
}

//! The headers of a script, by their words.

ghost use Rattle.std.specs.Prelude.{◌≡◌, ◌&&◌};
ghost use Rattle.std.specs.Char.{is_ascii_alphabetic};
ghost use Rattle.std.specs.List.{list_all};
ghost use Rattle.idl_lex.specs.Bytes.{begins, is_word_byte};
ghost use Rattle.script_lines.specs.FormSteps.{file_at, identifier, interface_in, interface_at, servant_at, queue_at, header_by};
ghost use Rattle.script_lines.specs.ViewSteps.{header_form};
ghost use Rattle.script_lines.specs.ScanSteps.{Gives};

use crate::forms::rule::{RuleForm, read_rule};
use crate::numbers::is_natural;
use crate::scan::{next_word, only_word, something, two_words, utf8, word_before};

/// What a header says. The object and the numbers are texts.
#[derive(Clone, Copy)]
pub enum HeaderForm<'a> {
    Client(&'a str),
    Server(&'a str),
    Interface {
        module: &'a [u8],
        name: &'a [u8],
    },
    Object(&'a [u8]),
    Servant {
        func: &'a [u8],
        rule: RuleForm<'a>,
    },
    Queue {
        capacity: &'a [u8],
        timeout: &'a [u8],
    },
}

#[tactic(auto, unfolding(crate::specs::FormSteps::file_at))]
fn read_file(rest: &[u8]) -> Option<&str>
    ensures { Gives (λ file. file.now) result (file_at rest.now) }
{
    utf8(only_word(rest)?)
}

fn has_only_word_bytes(word: &[u8]) -> bool
    ensures { result ≡ list_all is_word_byte word.now }
{
    word.iter()
        .all(|byte| byte.is_ascii_alphanumeric() || *byte == b'_')
}

fn begins_with_letter(word: &[u8]) -> bool
    ensures { result ≡ begins is_ascii_alphabetic word.now }
{
    match word {
        [first, ..] => first.is_ascii_alphabetic(),
        [] => false,
    }
}

/// The word, if it is an identifier or a keyword.
#[tactic(auto, unfolding(crate::specs::FormSteps::identifier))]
fn identifier(word: &[u8]) -> Option<&[u8]>
    ensures { Gives (λ word. word.now) result (identifier word.now) }
{
    (begins_with_letter(word) && has_only_word_bytes(word)).then_some(word)
}

#[tactic(auto, unfolding(crate::specs::FormSteps::interface_in))]
fn split_interface(word: &[u8]) -> Option<(&[u8], &[u8])>
    ensures { Gives (λ x. (x.0.now, x.1.now)) result (interface_in word.now) }
{
    let (module, name) = word_before(word, b"::")?;
    Some((identifier(module)?, identifier(name)?))
}

#[tactic(auto, unfolding(crate::specs::FormSteps::interface_at))]
fn read_interface(rest: &[u8]) -> Option<HeaderForm<'_>>
    ensures { Gives header_form result (interface_at rest.now) }
{
    let (module, name) = split_interface(only_word(rest)?)?;
    Some(HeaderForm::Interface { module, name })
}

#[tactic(auto, unfolding(crate::specs::FormSteps::servant_at))]
fn read_servant(rest: &[u8]) -> Option<HeaderForm<'_>>
    ensures { Gives header_form result (servant_at rest.now) }
{
    let (func, rest) = next_word(rest)?;
    let (kind, rest) = next_word(rest)?;
    let rule = read_rule(kind, rest)?;
    Some(HeaderForm::Servant { func, rule })
}

#[tactic(auto, unfolding(crate::specs::FormSteps::queue_at))]
fn read_queue(rest: &[u8]) -> Option<HeaderForm<'_>>
    ensures { Gives header_form result (queue_at rest.now) }
{
    let (capacity, timeout) = two_words(rest)?;
    if !is_natural(capacity) || !is_natural(timeout) {
        return None;
    }
    Some(HeaderForm::Queue { capacity, timeout })
}

/// The header that the first word and the rest of the line say.
#[tactic(auto, unfolding(crate::specs::FormSteps::header_by))]
pub fn read_header<'a>(word: &[u8], rest: &'a [u8]) -> Option<HeaderForm<'a>>
    ensures { Gives header_form result (header_by word.now rest.now) }
{
    if word == b"client".as_slice() {
        Some(HeaderForm::Client(read_file(rest)?))
    } else if word == b"server".as_slice() {
        Some(HeaderForm::Server(read_file(rest)?))
    } else if word == b"interface".as_slice() {
        read_interface(rest)
    } else if word == b"object".as_slice() {
        Some(HeaderForm::Object(something(rest)?))
    } else if word == b"servant".as_slice() {
        read_servant(rest)
    } else if word == b"queue".as_slice() {
        read_queue(rest)
    } else {
        None
    }
}

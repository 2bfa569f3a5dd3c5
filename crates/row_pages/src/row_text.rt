//! The words of a row, and the bytes that its text stands for.

ghost use Rattle.std.specs.Prelude.{◌≡◌, IfOk};
ghost use Rattle.std.specs.List.{before_first, after_first};
ghost use Rattle.row_pages.specs.RowWords.{is_space, is_tilde};

use std::alloc::{AllocError, Global};

/// The first word of a text, and what stands after it.
pub fn split_word(text: &str) -> (&str, &str)
    ensures word { result.0.now ≡ before_first is_space text.now }
    ensures rest { result.1.now ≡ after_first is_space text.now }
{
    text.split_once(' ').unwrap_or((text, ""))
}

/// The value of a hexadecimal digit; 0 for another byte.
fn hex_digit(digit: u8) -> u8 {
    match digit {
        b'0'..=b'9' => digit - b'0',
        b'A'..=b'F' => digit - b'A' + 10,
        _ => 0,
    }
}

/// What `N(PIECE)` stands for: so many times the piece. What has not this form stands for nothing.
fn add_repeated(bytes: &mut Vec<u8>, text: &str) -> Result<(), AllocError> {
    let Some((count, more)) = text.split_once('(') else {
        return Ok(());
    };
    let Some((piece, rest)) = more.split_once(')') else {
        return Ok(());
    };
    for _ in 0..count.parse::<u32>().unwrap_or(0) {
        bytes.extend_from_slice(piece.as_bytes())?;
    }
    bytes.extend_from_slice(rest.as_bytes())
}

fn add_byte(bytes: &mut Vec<u8>, byte: u8, rest: &[u8]) -> Result<(), AllocError> {
    bytes.push(byte)?;
    bytes.extend_from_slice(rest)
}

/// What stands after a `~`.
fn add_escaped(bytes: &mut Vec<u8>, text: &str) -> Result<(), AllocError> {
    match text.as_bytes() {
        [b'n', rest @ ..] => add_byte(bytes, b'\n', rest),
        [b't', rest @ ..] => add_byte(bytes, b'\t', rest),
        [b'r', rest @ ..] => add_byte(bytes, b'\r', rest),
        [b'x', high, low, rest @ ..] => {
            let byte = hex_digit(*high).wrapping_mul(16) | hex_digit(*low);
            add_byte(bytes, byte, rest)
        }
        _ => add_repeated(bytes, text),
    }
}

/// The bytes of a row's text. `~n`, `~t`, `~r` and `~xHH` stand for a byte, and `~N(PIECE)` for so many
/// times the piece.
pub fn bytes_of(alloc: Global, text: &str) -> Result<Vec<u8>, AllocError>
    ensures plain { before_first is_tilde text.now ≡ text.now → IfOk result (λ bytes. bytes.items ≡ text.now) }
{
    let Some((prefix, more)) = text.split_once('~') else {
        return Vec::from_slice(alloc, text.as_bytes());
    };
    let mut bytes = Vec::from_slice(alloc, prefix.as_bytes())?;
    for piece in more.split('~') {
        add_escaped(&mut bytes, piece)?;
    }
    Ok(bytes)
}

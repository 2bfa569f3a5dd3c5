use crate::lex_fault::LexWhy;

/// What is wrong in a text: the reason, and what stands from its offset on.
#[derive(Clone, Copy)]
pub struct Fault<'a> {
    pub from: &'a [u8],
    pub why: LexWhy,
}

ghost use Rattle.std.specs.Prelude.{◌≡◌, ◌≤◌, length, slice_range};

/// Bytes of a text: from `start` up to `end`.
#[derive(Clone, Copy, PartialEq, Eq)]
pub struct Span {
    pub start: u32,
    pub end: u32,
}

impl Span {
    /// The bytes of the span.
    pub fn slice(self, text: &[u8]) -> &[u8]
        requires order { self.start ≤ self.end }
        requires within { self.end ≤ length text.now }
        ensures { result.now ≡ slice_range text.now self.start self.end }
    {
        &text[self.start as usize..self.end as usize]
    }
}

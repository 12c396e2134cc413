//! A part of a document.

ghost use Rattle.std.specs.Prelude.{◌≡◌, ◌≤◌, length};
ghost use Rattle.odb_spans.specs.Spans.{bytes_of};

/// The bytes of a document from `start` up to, but not including, `end`.
#[derive(Clone, Copy, Debug, Drop, PartialEq, Eq)]
pub struct Span {
    pub start: usize,
    pub end: usize,
}

impl Span {
    /// Returns the bytes of the span. `document` is the one in which it was found.
    pub fn bytes_in(self, document: &[u8]) -> &[u8]
        requires order { self.start ≤ self.end }
        requires within { self.end ≤ length document.now }
        ensures { result.now ≡ bytes_of document.now self }
    {
        &document[self.start..self.end]
    }
}

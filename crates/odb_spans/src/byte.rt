//! What a byte of JSON is outside a string (RFC 8259, section 2).

ghost use Rattle.std.specs.Prelude.{◌≡◌, ◌≤◌, ◌<◌, ◌↔◌, length, get_or, IsTrue, MatchOption};
ghost use Rattle.odb_spans.specs.Kinds.{IsKind};
ghost use Rattle.odb_spans.specs.Kinds as spec;

/// What a byte is outside a string.
#[derive(Clone, Copy)]
pub(crate) enum Kind {
    Quote,
    Backslash,
    /// `{` or `[`.
    Open,
    /// `}` or `]`.
    Close,
    /// `,` or `:`.
    Separator,
    Blank,
    /// A byte of a number or a literal, if the text is JSON.
    Other,
}

impl Kind {
    /// Returns what the byte is.
    pub(crate) fn of(byte: u8) -> Self
        ensures { IsKind result byte }
    {
        match byte {
            b'"' => Kind::Quote,
            b'\\' => Kind::Backslash,
            b'{' | b'[' => Kind::Open,
            b'}' | b']' => Kind::Close,
            b',' | b':' => Kind::Separator,
            b' ' | b'\t' | b'\n' | b'\r' => Kind::Blank,
            _ => Kind::Other,
        }
    }

    /// Returns whether a number or a literal ends before the byte.
    pub(crate) fn ends_word(self) -> bool
        ensures { result ≡ spec.ends_word self }
    {
        matches!(
            self,
            Kind::Open | Kind::Close | Kind::Separator | Kind::Blank
        )
    }

    /// Returns whether the byte is a comma or a colon.
    pub(crate) fn is_separator(self) -> bool
        ensures { result ≡ spec.is_separator self }
    {
        matches!(self, Kind::Separator)
    }

    /// Returns whether the byte is a closing bracket.
    pub(crate) fn closes(self) -> bool
        ensures { result ≡ spec.is_close self }
    {
        matches!(self, Kind::Close)
    }

    /// Returns what the byte at a position is, or none at the end of the text.
    pub(crate) fn at(text: &[u8], at: usize) -> Option<Self>
        ensures { MatchOption result (length text.now ≤ at)
            (λ kind. (at < length text.now) × IsKind kind (get_or text.now at 0)) }
    {
        if at < text.len() {
            Some(Kind::of(text[at]))
        } else {
            None
        }
    }
}

/// Returns whether the text has this byte at a position.
pub(crate) fn has_byte(text: &[u8], at: usize, byte: u8) -> bool
    ensures { IsTrue result ↔ ((at < length text.now) × (get_or text.now at 0 ≡ byte)) }
{
    at < text.len() && text[at] == byte
}

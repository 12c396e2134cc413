//! The longest run of bytes of a class.

ghost use Rattle.std.specs.Prelude.{◌≡◌, ◌+◌, length};
ghost use Rattle.odb_resolve.specs.Classes.{SplitsRun, is_of};
ghost use Rattle.odb_resolve.specs.Texts.{run, rest};

/// A set of bytes.
#[derive(Clone, Copy)]
pub(crate) enum Class {
    /// What is before the fragment of a URL.
    Sent,
    /// What is before the query.
    Hierarchy,
    /// A segment of the path.
    Segment,
    /// A scheme.
    Scheme,
    /// A segment without its parameters.
    Name,
}

impl Class {
    /// Returns whether the class has the byte.
    fn has(self, byte: u8) -> bool
        ensures { result ≡ is_of self byte }
    {
        match self {
            Class::Sent => byte != b'#',
            Class::Hierarchy => byte != b'?',
            Class::Segment => byte != b'/',
            Class::Scheme => byte.is_ascii_alphanumeric() || matches!(byte, b'+' | b'-' | b'.'),
            Class::Name => byte != b';',
        }
    }
}

/// Splits the text after its longest prefix of bytes in the class.
fn split(text: &[u8], class: Class) -> (&[u8], &[u8])
    ensures { SplitsRun (is_of class) text.now result.0.now result.1.now }
{
    let end = text.iter().position(|byte| !class.has(*byte));
    text.split_at(end.unwrap_or(text.len()))
}

/// Splits the text after its longest prefix of bytes in the class.
pub(crate) fn split_run(text: &[u8], class: Class) -> (&[u8], &[u8])
    ensures front { result.0.now ≡ run (is_of class) text.now }
    ensures back { result.1.now ≡ rest (is_of class) text.now }
    ensures len { length result.0.now + length result.1.now ≡ length text.now }
{
    split(text, class)
}

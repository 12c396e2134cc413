//! The longest run of bytes of a class.

ghost use Rattle.std.specs.Prelude.{◌≡◌};
ghost use Rattle.odb_names.specs.Classes.{is_of};
ghost use Rattle.odb_names.specs.Runs.{SplitsRun};

use crate::identifier::is_unreserved;

/// A set of bytes.
#[derive(Clone, Copy)]
pub(crate) enum Class {
    /// The bytes of identifiers.
    Unreserved,
    /// The bytes of base64url, before its padding.
    Base64Url,
    /// The bytes of the path of a URL.
    Path,
    /// The bytes of a segment of the path.
    Segment,
}

impl Class {
    /// Returns whether the class has the byte.
    fn has(self, byte: u8) -> bool
        ensures { result ≡ is_of self byte }
    {
        match self {
            Class::Unreserved => is_unreserved(byte),
            Class::Base64Url => byte.is_ascii_alphanumeric() || matches!(byte, b'-' | b'_'),
            Class::Path => !matches!(byte, b'?' | b'#'),
            Class::Segment => !matches!(byte, b'/' | b'?' | b'#'),
        }
    }
}

/// Splits the text after its longest prefix of bytes in the class.
pub(crate) fn split_run(text: &[u8], class: Class) -> (&[u8], &[u8])
    ensures { SplitsRun (is_of class) text.now result.0.now result.1.now }
{
    let end = text.iter().position(|byte| !class.has(*byte));
    text.split_at(end.unwrap_or(text.len()))
}

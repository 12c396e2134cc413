//! Texts in base64url.

ghost use Rattle.std.specs.Prelude.{◌↔◌, IsTrue};
ghost use Rattle.odb_names.specs.Base64Url.{IsBase64Url, IsPadding};

use crate::run::{Class, split_run};

/// Returns whether the bytes are none, one or two `=`.
fn is_padding(bytes: &[u8]) -> bool
    ensures { IsTrue result ↔ IsPadding bytes.now }
{
    matches!(bytes, b"" | b"=" | b"==")
}

/// Returns whether the text has the form of base64url (RFC 4648, section 5).
///
/// That is ASCII letters, digits, `-` and `_`, whose count is not 1 modulo 4, and then at most two
/// `=`. The padding need not fit that count, and nothing is decoded.
pub fn is_base64url(text: &str) -> bool
    ensures { IsTrue result ↔ IsBase64Url text.now }
{
    let (digits, padding) = split_run(text.as_bytes(), Class::Base64Url);
    digits.len() % 4 != 1 && is_padding(padding)
}

//! The ids that requests may have.

ghost use Rattle.std.specs.Prelude.{◌≡◌, ◌↔◌, IsTrue};
ghost use Rattle.odb_names.specs.Identifiers.{IsRequestId, is_unreserved};

/// Returns whether the byte is an ASCII letter or digit, `-`, `.`, `_` or `~`.
pub(crate) fn is_unreserved(byte: u8) -> bool
    ensures { result ≡ is_unreserved byte }
{
    byte.is_ascii_alphanumeric() || matches!(byte, b'-' | b'.' | b'_' | b'~')
}

/// Returns whether the text may be the `id` or the `atomicityGroup` of a request.
///
/// By the OData ABNF 4.01 (`request-id`) it must be one or more ASCII letters, digits, `-`, `.`, `_` and
/// `~`. Case is significant.
pub fn is_request_id(text: &str) -> bool
    ensures { IsTrue result ↔ IsRequestId text.now }
{
    !text.is_empty() && text.as_bytes().iter().all(|byte| is_unreserved(*byte))
}

//! The parts of a URL.

ghost use Rattle.std.specs.Prelude.{◌≡◌, ◌≤◌, ◌==◌, length};
ghost use Rattle.std.specs.Char.{is_ascii_alphabetic};
ghost use Rattle.odb_resolve.specs.Texts.{begins};
ghost use Rattle.odb_resolve.specs.Classes.{url_of_parts};
ghost use Rattle.odb_resolve.specs.Urls.{authority_len, read_url, scheme_len};

use crate::run::{Class, split_run};

/// The parts of a URL (RFC 3986, section 3), each with its delimiter: `http:`, `//host:8080`, `/odata/Books` and
/// `?$top=1`. A part that the URL lacks is empty.
#[derive(Clone, Copy)]
pub(crate) struct Parts<'a> {
    pub(crate) scheme: &'a [u8],
    pub(crate) authority: &'a [u8],
    pub(crate) path: &'a [u8],
    pub(crate) query: &'a [u8],
}

/// Returns whether the text begins with an ASCII letter.
fn begins_with_letter(text: &[u8]) -> bool
    ensures { result ≡ begins is_ascii_alphabetic text.now }
{
    match text {
        [first, ..] => first.is_ascii_alphabetic(),
        [] => false,
    }
}

/// Returns whether the text begins with `:`.
fn begins_with_colon(text: &[u8]) -> bool
    ensures { result ≡ begins (λ byte. byte == 58) text.now }
{
    match text {
        [first, ..] => *first == b':',
        [] => false,
    }
}

/// Returns the length of the scheme and its `:`, or 0 without one.
fn scheme_len(text: &[u8]) -> usize
    ensures value { result ≡ scheme_len text.now }
    ensures within { result ≤ length text.now }
{
    let (name, rest) = split_run(text, Class::Scheme);
    if begins_with_letter(text) && begins_with_colon(rest) {
        name.len() + 1
    } else {
        0
    }
}

/// Returns the length of the authority and the `//` before it, or 0 without one.
fn authority_len(text: &[u8]) -> usize
    ensures value { result ≡ authority_len text.now }
    ensures within { result ≤ length text.now }
{
    match text {
        [b'/', b'/', more @ ..] => 2 + split_run(more, Class::Segment).0.len(),
        _ => 0,
    }
}

impl<'a> Parts<'a> {
    /// Returns the parts of a URL, without its fragment.
    #[tactic(auto, unfolding(crate::specs::Urls::read_url))]
    pub(crate) fn read(text: &'a [u8]) -> Parts<'a>
        ensures { url_of_parts result ≡ read_url text.now }
    {
        let (sent, _) = split_run(text, Class::Sent);
        let (hierarchy, query) = split_run(sent, Class::Hierarchy);
        let (scheme, after) = hierarchy.split_at(scheme_len(hierarchy));
        let (authority, path) = after.split_at(authority_len(after));
        Parts {
            scheme,
            authority,
            path,
            query,
        }
    }
}

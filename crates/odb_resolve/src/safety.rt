//! Paths that lead nowhere else, whatever a server makes of them.

ghost use Rattle.std.specs.Prelude.{◌≡◌, ◌∷◌, IfOk};
ghost use Rattle.odb_resolve.specs.Safety.{begins_with_control, ends_line, has_control, is_ascii_control, is_c1, is_clean, is_dots, is_safe};
ghost use Rattle.odb_resolve.specs.Texts.{begins, segments};
ghost use Rattle.std.specs.List.{list_any};

use crate::run::{Class, split_run};
use percent_encoding::percent_decode;
use std::alloc::{AllocError, Global};

/// Returns whether the byte is an ASCII control character.
pub(crate) fn is_ascii_control(byte: u8) -> bool
    ensures { result ≡ is_ascii_control byte }
{
    byte < 32 || byte == 127
}

/// Returns whether these two bytes follow the first one of U+2028 or U+2029 in UTF-8.
fn ends_line(text: &[u8]) -> bool
    ensures { result ≡ ends_line text.now }
{
    match text {
        [second, third, ..] => *second == 128 && (*third == 168 || *third == 169),
        _ => false,
    }
}

/// Returns whether the text begins with the second byte of U+0080 to U+009F in UTF-8.
fn begins_with_c1(text: &[u8]) -> bool
    ensures { result ≡ begins is_c1 text.now }
{
    match text {
        [second, ..] => 128 <= *second && *second <= 159,
        [] => false,
    }
}

/// Returns whether a text of this first byte begins with a control character or the end of a line.
fn begins_with_control(first: u8, more: &[u8]) -> bool
    ensures { result ≡ begins_with_control (first ∷ more.now) }
{
    is_ascii_control(first)
        || (first == 194 && begins_with_c1(more))
        || (first == 226 && ends_line(more))
}

/// Returns whether the text has a control character or the end of a line.
fn has_control(text: &[u8]) -> bool
    ensures { result ≡ has_control text.now }
{
    let mut rest = text;
    'bytes: while let [first, more @ ..] = rest {
        if begins_with_control(*first, more) {
            return true;
        }
        rest = more;
    }
    false
}

/// Returns whether the segment is `.` or `..`, without its parameters (RFC 3986, section 3.3).
fn is_dots(segment: &[u8]) -> bool
    ensures { result ≡ is_dots segment.now }
{
    let (name, _) = split_run(segment, Class::Name);
    name == b".".as_slice() || name == b"..".as_slice()
}

/// Returns whether a segment of the path is `.` or `..`.
fn has_dots(path: &[u8]) -> bool
    ensures { result ≡ list_any is_dots (segments path.now) }
{
    let mut rest = path;
    'segments: loop {
        let (segment, after) = split_run(rest, Class::Segment);
        if is_dots(segment) {
            return true;
        }
        match after {
            [_, more @ ..] => rest = more,
            [] => return false,
        }
    }
}

/// Returns whether the path has no control character, no `\` and no dot segment.
#[tactic(auto, unfolding(crate::specs::Safety::is_clean))]
fn is_clean(path: &[u8]) -> bool
    ensures { result ≡ is_clean path.now }
{
    !has_control(path) && !path.contains(&b'\\') && !has_dots(path)
}

/// Returns whether the path is clean as it is, decoded once, and decoded twice.
#[tactic(auto, unfolding(crate::specs::Safety::is_safe))]
pub(crate) fn is_safe(alloc: Global, path: &[u8]) -> Result<bool, AllocError>
    ensures { IfOk result (λ safe. safe ≡ is_safe path.now) }
{
    if !is_clean(path) {
        return Ok(false);
    }
    let once = percent_decode(path).into_cow(alloc)?;
    if !is_clean(once.as_slice()) {
        return Ok(false);
    }
    let twice = percent_decode(once.as_slice()).into_cow(alloc)?;
    Ok(is_clean(twice.as_slice()))
}

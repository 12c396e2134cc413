//! Roots, and what is below one.

ghost use Rattle.std.specs.Prelude.{◌≡◌, ◌≤◌, ◌++◌, drop, find, length, option_copied, option_map, string_bytes, IfOk, IsAscii};
ghost use Rattle.std.specs.List.{list_all};
ghost use Rattle.odb_resolve.specs.Classes.{url_of_parts, url_of_target};
ghost use Rattle.percent_encoding.specs.Percent.{percent_decode};
ghost use Rattle.odb_resolve.specs.Roots.{after_folder, begins_with, default_port, has_parts_of_root, is_below, is_escape, is_folder, is_in_root, is_same_origin, past_first, same_letters, sent_below, sent_with, without_port, without_suffix, within};
ghost use Rattle.odb_resolve.specs.Urls.{Url, read_url};

use crate::parts::Parts;
use crate::safety::is_safe;
use crate::target::Target;
use crate::text::{ESCAPED, folder_len, same_letters};
use percent_encoding::{ascii_str, percent_decode, percent_encode};
use std::alloc::{AllocError, Global};

/// Returns the text without the suffix, if it ends with it.
fn without_suffix<'a>(suffix: &[u8], text: &'a [u8]) -> &'a [u8]
    ensures { result.now ≡ without_suffix suffix.now text.now }
{
    text.strip_suffix(suffix).unwrap_or(text)
}

/// Returns the port that a scheme has by default, as an authority ends with it.
#[tactic(auto, unfolding(crate::specs::Roots::default_port))]
fn default_port(scheme: &[u8]) -> &'static [u8]
    ensures { result.now ≡ default_port scheme.now }
{
    if same_letters(scheme, b"http:") {
        b":80"
    } else if same_letters(scheme, b"https:") {
        b":443"
    } else {
        b""
    }
}

/// Returns an authority without an empty port and without the default one (RFC 3986, section 6.2.3).
fn without_port<'a>(scheme: &[u8], authority: &'a [u8]) -> &'a [u8]
    ensures { result.now ≡ without_port scheme.now authority.now }
{
    without_suffix(default_port(scheme), without_suffix(b":", authority))
}

/// Returns whether the path ends with `/`.
fn is_folder(path: &[u8]) -> bool
    ensures { result ≡ is_folder path.now }
{
    !path.is_empty() && folder_len(path) == path.len()
}

/// Returns whether these are the parts of a root.
#[tactic(auto, unfolding(crate::specs::Roots::has_parts_of_root))]
fn has_parts_of_root(root: &Parts<'_>) -> bool
    ensures { result ≡ has_parts_of_root (url_of_parts root.now) }
{
    !root.scheme.is_empty()
        && root.authority.len() > 2
        && !root.authority.contains(&b'@')
        && is_folder(root.path)
        && root.query.is_empty()
}

/// Returns whether each byte is one that a root has.
fn is_in_root(text: &[u8]) -> bool
    ensures { result ≡ list_all is_in_root text.now }
{
    text.iter().all(|byte| !ESCAPED.should_percent_encode(*byte) || matches!(*byte, b'[' | b']'))
}

/// Returns whether the URL has the scheme, host and port of the root (RFC 3986, sections 6.2.2.1 and 6.2.3).
#[tactic(auto, unfolding(crate::specs::Roots::is_same_origin))]
fn is_same_origin(target: &Target<'_>, root: &Parts<'_>) -> bool
    ensures { result ≡ is_same_origin (url_of_target target.now) (url_of_parts root.now) }
{
    same_letters(target.scheme, root.scheme)
        && same_letters(
            without_port(target.scheme, target.authority),
            without_port(root.scheme, root.authority),
        )
}

/// Returns whether these bytes are `%` and two hexadecimal digits (RFC 3986, section 2.1).
fn is_escape(sign: u8, high: u8, low: u8) -> bool
    ensures { result ≡ is_escape sign high low }
{
    sign == b'%' && high.is_ascii_hexdigit() && low.is_ascii_hexdigit()
}

/// Returns what follows the first byte of a text, or the escape of it.
fn past_first(text: &[u8]) -> &[u8]
    ensures { result.now ≡ past_first text.now }
{
    match text {
        [sign, high, low, more @ ..] if is_escape(*sign, *high, *low) => more,
        [_, more @ ..] => more,
        [] => &[],
    }
}

/// Returns whether the first byte of a text is this one, once it is decoded.
fn begins_with(byte: u8, text: &[u8]) -> bool
    ensures { result ≡ begins_with byte text.now }
{
    match percent_decode(text).next() {
        Some(first) => first == byte,
        None => false,
    }
}

/// Returns what follows a folder in a path that begins with it, maybe with other escapes (RFC 3986, section 6.2.2).
fn after_folder<'a>(folder: &[u8], path: &'a [u8]) -> Option<&'a [u8]>
    ensures { option_map (λ more. more.now) result ≡ after_folder (percent_decode folder.now) path.now }
{
    let mut left = percent_decode(folder);
    let mut rest = path;
    'bytes: while let Some(byte) = left.next() {
        if !begins_with(byte, rest) {
            return None;
        }
        rest = past_first(rest);
    }
    Some(rest)
}

/// Returns whether a URL with this encoded path is below the root.
#[tactic(auto, unfolding(crate::specs::Roots::is_below))]
fn is_below(target: &Target<'_>, path: &[u8], root: &[u8]) -> bool
    ensures { result ≡ is_below (url_of_target target.now) path.now root.now }
{
    let parts = Parts::read(root);
    is_in_root(root)
        && has_parts_of_root(&parts)
        && is_same_origin(target, &parts)
        && after_folder(parts.path, path).is_some()
}

/// Returns the first root that a URL with this encoded path is below.
fn first_root<'a>(target: &Target<'_>, path: &[u8], roots: &[&'a str]) -> Option<&'a str>
    ensures { result ≡ find (λ root. is_below (url_of_target target.now) path.now root.now) roots.now }
{
    roots
        .iter()
        .copied()
        .find(|root| is_below(target, path, root.as_bytes()))
}

/// Appends what follows the root's path, and the query, to the root, if the path is safe then.
fn sent_with(
    alloc: Global,
    root: &str,
    more: &[u8],
    query: &[u8],
) -> Result<Option<String>, AllocError>
    requires { IsAscii more.now }
    ensures { IfOk result (λ url. option_map (λ text. string_bytes text) url ≡ sent_with query.now root.now more.now) }
{
    let mut path = Vec::from_slice(alloc, Parts::read(root.as_bytes()).path)?;
    path.extend_from_slice(more)?;
    if !is_safe(alloc, path.as_slice())? {
        return Ok(None);
    }
    let mut url = String::from_str(alloc, root)?;
    url.push_str(ascii_str(more))?;
    percent_encode(query, ESCAPED).append_to(&mut url)?;
    Ok(Some(url))
}

/// Returns the URL with this encoded path as it is sent below the root.
#[tactic(auto, unfolding(crate::specs::Roots::sent_below))]
fn sent_below(
    alloc: Global,
    root: &str,
    path: &[u8],
    query: &[u8],
) -> Result<Option<String>, AllocError>
    requires { IsAscii path.now }
    ensures { IfOk result (λ url. option_map (λ text. string_bytes text) url ≡ sent_below path.now query.now root.now) }
{
    match after_folder(Parts::read(root.as_bytes()).path, path) {
        Some(more) => sent_with(alloc, root, more, query),
        None => Ok(None),
    }
}

/// Returns the URL as it is sent, if it leads below one of the roots and its path is safe.
#[tactic(auto, unfolding(crate::specs::Roots::within))]
pub(crate) fn within(
    alloc: Global,
    roots: &[&str],
    target: &Target<'_>,
) -> Result<Option<String>, AllocError>
    ensures { IfOk result (λ url. option_map (λ text. string_bytes text) url ≡ within roots.now (url_of_target target.now)) }
{
    let path = percent_encode(target.path.as_slice(), ESCAPED).into_cow(alloc)?;
    match first_root(target, path.as_bytes(), roots) {
        Some(root) => sent_below(alloc, root, path.as_bytes(), target.query),
        None => Ok(None),
    }
}

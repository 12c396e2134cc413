//! URLs that are relative to others.

ghost use Rattle.std.specs.Prelude.{◌≡◌, IfOk, ◌≤◌, length, take};
ghost use Rattle.odb_resolve.specs.Classes.{url_of_parts, url_of_target};
ghost use Rattle.odb_resolve.specs.Joins.{extended, is_elsewhere, join, merge, relative_path, relative_query, trimmed};

use crate::dots::remove_dots;
use crate::parts::Parts;
use crate::run::{Class, split_run};
use crate::target::Target;
use crate::text::folder_len;
use std::alloc::{AllocError, Global};

/// Returns the path after the folder of the base's path (RFC 3986, section 5.2.3).
fn merge(alloc: Global, base: &Parts<'_>, path: &[u8]) -> Result<Vec<u8>, AllocError>
    ensures { IfOk result (λ merged. merged.items ≡ merge (url_of_parts base.now) path.now) }
{
    let folder: &[u8] = if !base.authority.is_empty() && base.path.is_empty() {
        b"/"
    } else {
        &base.path[..folder_len(base.path)]
    };
    let mut merged = Vec::from_slice(alloc, folder)?;
    merged.extend_from_slice(path)?;
    Ok(merged)
}

/// Returns the path of a reference that names no host.
fn relative_path(alloc: Global, base: &Parts<'_>, path: &[u8]) -> Result<Vec<u8>, AllocError>
    ensures { IfOk result (λ target. target.items ≡ relative_path (url_of_parts base.now) path.now) }
{
    match path {
        [] => Vec::from_slice(alloc, base.path),
        [b'/', ..] => remove_dots(alloc, path),
        _ => {
            let merged = merge(alloc, base, path)?;
            remove_dots(alloc, merged.as_slice())
        }
    }
}

/// Returns the query of a reference that names no host.
fn relative_query<'a>(base: &Parts<'a>, reference: &Parts<'a>) -> &'a [u8]
    ensures { result.now ≡ relative_query (url_of_parts base.now) (url_of_parts reference.now) }
{
    if reference.path.is_empty() && reference.query.is_empty() {
        base.query
    } else {
        reference.query
    }
}

/// Returns whether the reference names its host.
fn is_elsewhere(reference: &Parts<'_>) -> bool
    ensures { result ≡ is_elsewhere (url_of_parts reference.now) }
{
    !(reference.scheme.is_empty() && reference.authority.is_empty())
}

/// Returns the URL that a reference leads to from a base (RFC 3986, section 5.2.2).
#[tactic(auto, unfolding(crate::specs::Joins::join))]
pub(crate) fn join<'a>(
    alloc: Global,
    base: &Parts<'a>,
    reference: &Parts<'a>,
) -> Result<Target<'a>, AllocError>
    ensures { IfOk result (λ target. url_of_target target ≡ join (url_of_parts base.now) (url_of_parts reference.now)) }
{
    let scheme = if reference.scheme.is_empty() {
        base.scheme
    } else {
        reference.scheme
    };
    if is_elsewhere(reference) {
        return Ok(Target {
            scheme,
            authority: reference.authority,
            path: remove_dots(alloc, reference.path)?,
            query: reference.query,
        });
    }
    Ok(Target {
        scheme,
        authority: base.authority,
        path: relative_path(alloc, base, reference.path)?,
        query: relative_query(base, reference),
    })
}

/// Removes the slashes at the end of a path.
fn trim(path: &mut Vec<u8>)
    ensures { path.new.items ≡ trimmed path.old.items }
{
    'slashes: while path.len() > 0 {
        let last = path.len() - 1;
        if path[last] != b'/' {
            return;
        }
        path.truncate(last);
    }
}

/// Returns the URL of an entity, followed by what follows a reference to it (OData JSON Format 4.01, section 19.2).
#[tactic(auto, unfolding(crate::specs::Joins::extended))]
pub(crate) fn extended<'a>(entity: Target<'a>, text: &'a [u8]) -> Result<Target<'a>, AllocError>
    ensures { IfOk result (λ target. url_of_target target ≡ extended (url_of_target entity.entry) text.now) }
{
    let (sent, _) = split_run(text, Class::Sent);
    let (hierarchy, query) = split_run(sent, Class::Hierarchy);
    let mut path = entity.path;
    trim(&mut path);
    path.extend_from_slice(hierarchy)?;
    Ok(Target {
        scheme: entity.scheme,
        authority: entity.authority,
        path,
        query,
    })
}

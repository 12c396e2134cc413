//! The URL that a reference leads to.

ghost use Rattle.std.specs.Prelude.{◌≡◌, IfOk};
ghost use Rattle.odb_resolve.specs.Classes.{url_of_parts, url_of_target};

use crate::parts::Parts;
use std::alloc::{AllocError, Global};

/// The parts of a URL whose path was made anew.
#[derive(Drop)]
pub(crate) struct Target<'a> {
    pub(crate) scheme: &'a [u8],
    pub(crate) authority: &'a [u8],
    pub(crate) path: Vec<u8>,
    pub(crate) query: &'a [u8],
}

impl<'a> Target<'a> {
    /// Returns the URL with these parts.
    pub(crate) fn copy(alloc: Global, parts: &Parts<'a>) -> Result<Target<'a>, AllocError>
        ensures { IfOk result (λ target. url_of_target target ≡ url_of_parts parts.now) }
    {
        Ok(Target {
            scheme: parts.scheme,
            authority: parts.authority,
            path: Vec::from_slice(alloc, parts.path)?,
            query: parts.query,
        })
    }
}

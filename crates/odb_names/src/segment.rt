//! What the first segment of a URL refers to.

ghost use Rattle.std.specs.Prelude.{◌≡◌, ℕ, List, IfOk, OnErr, bytes_eq};
ghost use Rattle.std.specs.List.{list_any};
ghost use Rattle.odb_names.specs.Fronts.{IsFrontOf, form, is_reserved, reference};

use crate::run::{Class, split_run};
use percent_encoding::ascii_str;
use std::alloc::{AllocError, Global};

/// What the first segment of a URL means in a batch (OData JSON Format 4.01, section 19.1).
#[derive(Debug, Drop, PartialEq, Eq)]
pub enum Front {
    /// The segment does not begin with `$`, so the URL refers to no request.
    Plain,
    /// `$` and a name that OData reserves, such as `$metadata`, whatever follows the name.
    Reserved,
    /// `$` and this identifier: the URL is relative to the response of the request that has it.
    Reference(String),
    /// `$`, and then neither a reserved name nor an identifier alone.
    Bad,
}

const RESERVED_NAMES: [&str; 7] = [
    "batch",
    "crossjoin",
    "all",
    "entity",
    "root",
    "id",
    "metadata",
];

/// Returns whether the name is one of these.
fn is_among(name: &[u8], names: &[&str]) -> bool
    ensures { result ≡ list_any (λ other. bytes_eq name.now other.now) names.now }
{
    names.iter().any(|other| name == other.as_bytes())
}

/// Returns whether OData reserves the name after a `$`.
fn is_reserved(name: &[u8]) -> bool
    ensures { result ≡ is_reserved name.now }
{
    is_among(name, &RESERVED_NAMES)
}

impl Front {
    /// Returns the front of a URL by its first segment, percent-decoded.
    pub(crate) fn of_segment(alloc: Global, segment: &[u8]) -> Result<Front, AllocError>
        ensures front { IfOk result (λ front. IsFrontOf segment.now (form front)) }
        ensures memory { OnErr result ((id : List ℕ) × IsFrontOf segment.now (reference id)) }
    {
        let [b'$', after @ ..] = segment else {
            return Ok(Front::Plain);
        };
        let (run, rest) = split_run(after, Class::Unreserved);
        if is_reserved(run) {
            return Ok(Front::Reserved);
        }
        if run.is_empty() || !rest.is_empty() {
            return Ok(Front::Bad);
        }
        Ok(Front::Reference(String::from_str(alloc, ascii_str(run))?))
    }
}

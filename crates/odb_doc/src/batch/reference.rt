//! The request that a URL refers to.

ghost use Rattle.std.specs.Prelude.{◌⊎◌, option_map, string_bytes, IfNone, IfOk, IfSome, OnSome};
ghost use Rattle.odb_names.specs.Fronts.{HasFront, bad};
ghost use Rattle.odb_names.specs.Segments.{IsNestedBatch};
ghost use Rattle.odb_doc.specs.batch.References.{RefersTo};

use odb_names::{Front, front, is_nested_batch};
use std::alloc::{AllocError, Global};

/// Returns the identifier that the URL of a request refers to, if any; `None` if the URL names a batch, or
/// begins with `$` and refers to nothing.
#[inline(always)]
pub(crate) fn reference_of(alloc: Global, url: &str) -> Result<Option<Option<String>>, AllocError>
    ensures plain { IfOk result (λ found. OnSome found (¬ IsNestedBatch url.now)) }
    ensures fits { IfOk result (λ found. OnSome found (¬ HasFront url.now bad)) }
    ensures refers { IfOk result (λ found. IfSome found (λ id. RefersTo url.now (option_map string_bytes id))) }
    ensures none { IfOk result (λ found. IfNone found (IsNestedBatch url.now ⊎ HasFront url.now bad)) }
{
    if is_nested_batch(alloc, url)? {
        return Ok(None);
    }
    match front(alloc, url)? {
        Front::Plain | Front::Reserved => Ok(Some(None)),
        Front::Reference(id) => Ok(Some(Some(id))),
        Front::Bad => Ok(None),
    }
}

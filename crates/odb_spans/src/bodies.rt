//! The bodies of all requests.

ghost use Rattle.std.specs.Prelude.{◌<◌, length, IfOk, OnErr};
ghost use Rattle.std.specs.List.{All, AllZip};
ghost use Rattle.serde_json.specs.Data.{Data};
ghost use Rattle.odb_doc.specs.Documents.{IsJson};
ghost use Rattle.odb_doc.specs.batch.Shapes.{elements};
ghost use Rattle.odb_spans.specs.Spans.{EachSpan, HasBodyAt, IsPlaceOfBody, IsWithin};

use crate::members::members_in;
use crate::span::Span;
use std::alloc::{AllocError, Global};

/// Returns where the body of each request lies in the document of a batch, `None` for a request without
/// one (OData JSON Format 4.01, section 19.1, `body`).
///
/// For a document that [`odb_doc::parse`] and [`odb_doc::Batch::read`] accept, the bodies are those of
/// the requests of the batch, in order; what holds of each is as of [`members_in`].
///
/// Costs O(n) for a document of n bytes.
///
/// # Errors
///
/// If memory for the list, or for a name while it is compared, cannot be allocated. Not for an empty
/// document.
pub fn bodies_in(alloc: Global, document: &[u8]) -> Result<Vec<Option<Span>>, AllocError>
    ensures bodies { IfOk result (λ found. (d : Data) → IsJson document.now d
        → AllZip (HasBodyAt document.now) (elements d) found.items) }
    ensures places { IfOk result (λ found. (d : Data) → IsJson document.now d
        → EachSpan (IsPlaceOfBody document.now d) 0 found.items) }
    ensures bounds { IfOk result (λ found. All (IsWithin (length document.now)) found.items) }
    ensures memory { OnErr result (0 < length document.now) }
{
    members_in(alloc, document, "requests", "body")
}

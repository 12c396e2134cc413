//! A member of each element of an array.

ghost use Rattle.std.specs.Prelude.{◌<◌, length, IfOk, OnErr};
ghost use Rattle.std.specs.List.{All, AllZip};
ghost use Rattle.serde_json.specs.Data.{Data};
ghost use Rattle.odb_doc.specs.Documents.{IsJson};
ghost use Rattle.odb_doc.specs.Members.{elements_at};
ghost use Rattle.odb_spans.specs.Spans.{EachSpan, HasMemberAt, IsPlaceOfMember, IsWithin};

use crate::given::given_at;
use crate::locate::elements_in;
use crate::span::Span;
use crate::walk::value_start;
use std::alloc::{AllocError, Global};

/// Returns where a member of each element of the array at the member `list` of a document lies, `None` for an
/// element without one. The elements are in order.
///
/// In a document that is JSON, [`odb_doc::parse`] reads the bytes of a span as that member, which nests at most 124
/// deep; with `null` in their place that element has no such member, with `true` it is true, and the others have
/// theirs. A span has no blank at either end, and no token goes over its start. Only one list of spans has all this:
/// [`crate::laws::one_place`]. A member that is `null` is treated as absent. If a name repeats in an
/// object, its last member counts. Of any other bytes, too, each span lies within the document.
///
/// Costs O(n) for a document of n bytes.
///
/// # Errors
///
/// If memory for the list, or for a name while it is compared, cannot be allocated. Not for an empty
/// document.
pub fn members_in(
    alloc: Global,
    document: &[u8],
    list: &str,
    name: &str,
) -> Result<Vec<Option<Span>>, AllocError>
    ensures members { IfOk result (λ found. (d : Data) → IsJson document.now d
        → AllZip (HasMemberAt name.now document.now) (elements_at list.now d) found.items) }
    ensures places { IfOk result (λ found. (d : Data) → IsJson document.now d
        → EachSpan (IsPlaceOfMember list.now name.now document.now d) 0 found.items) }
    ensures bounds { IfOk result (λ found. All (IsWithin (length document.now)) found.items) }
    ensures memory { OnErr result (0 < length document.now) }
{
    let elements = elements_in(alloc, document, value_start(document), list)?;
    let mut members = Vec::with_capacity(alloc, elements.len())?;
    for element in &elements {
        members.push(given_at(alloc, document, element.start, name)?)?;
    }
    Ok(members)
}

//! All faults of the shape of a batch document, in order.

ghost use Rattle.std.specs.Prelude.{◌≡◌, ◌↔◌, ◌+◌, [], List, Some, IfOk, IfSome, OnOk, map, slice_get};
ghost use Rattle.serde_json.specs.Data.{Data};
ghost use Rattle.serde_json.specs.View.{view};
ghost use Rattle.odb_doc.specs.ListsBelow.{ListsBelow, IsRequestFault, IsWholeFault};
ghost use Rattle.odb_doc.specs.AllFaults.{ListsAll};
ghost use Rattle.odb_doc.specs.batch.LeastFault.{IsWellShaped, IsLeastFault};
ghost use Rattle.odb_doc.specs.batch.ShapeFaults.{AreShapeFaults, shape_place};

use crate::batch::asked::{Asked, REQUEST_RULES};
use crate::batch::object::{DOCUMENT_RULES, breaks, elements_in};
use crate::fault::DocFault;
use serde_json::Value;
use std::alloc::{AllocError, Global};

/// Returns the faults of the document as a whole.
fn whole_faults(alloc: Global, document: &Value) -> Result<Vec<DocFault>, AllocError>
    ensures { IfOk result (λ faults. ListsAll shape_place (IsWholeFault (view document.now)) faults.items) }
{
    let mut faults = Vec::new(alloc);
    for rule in DOCUMENT_RULES {
        if breaks(document, *rule) {
            faults.push(DocFault::Document(*rule))?;
        }
    }
    Ok(faults)
}

/// Appends the faults of the request at a position to those of the requests before it.
fn push_faults(
    alloc: Global,
    element: &Value,
    at: usize,
    faults: &mut Vec<DocFault>,
) -> Result<(), AllocError>
    ensures { OnOk result ((ds : List Data) → slice_get ds at ≡ Some (view element.now)
        → ListsBelow shape_place (IsRequestFault ds) (at, 0) faults.old.items
        → ListsBelow shape_place (IsRequestFault ds) (at + 1, 0) faults.new.items) }
{
    let request = Asked::of(element);
    for rule in REQUEST_RULES {
        if request.breaks(alloc, *rule)? {
            faults.push(DocFault::Request { at, rule: *rule })?;
        }
    }
    Ok(())
}

/// Returns the faults of the requests.
fn request_faults(alloc: Global, elements: &[Value]) -> Result<Vec<DocFault>, AllocError>
    ensures { IfOk result (λ faults. ListsAll shape_place (IsRequestFault (map view elements.now)) faults.items) }
{
    let mut faults = Vec::new(alloc);
    for (at, element) in elements.iter().enumerate() {
        push_faults(alloc, element, at, &mut faults)?;
    }
    Ok(faults)
}

/// Returns all faults of the shape of a batch document: those of the document as a whole, F03 to F06, if
/// it has any, and else those of its requests, F10 to F23 (OData JSON Format 4.01, section 19.1).
///
/// They come in the order of position and number, each once. There are none if and only if
/// [`Batch::read`](crate::Batch::read) accepts the document; else the first of them is what it reports.
///
/// Each rule is asked for itself, as [`Batch::read`](crate::Batch::read) asks for the first. It takes O(n log n) for a document of n bytes, as reading it does, and
/// memory for the list and for what the rules ask of one request.
///
/// # Errors
///
/// If an allocation fails.
pub fn shape_faults(alloc: Global, document: &Value) -> Result<Vec<DocFault>, AllocError>
    ensures all { IfOk result (λ faults. AreShapeFaults (view document.now) faults.items) }
    ensures none { IfOk result (λ faults. (faults.items ≡ []) ↔ IsWellShaped (view document.now)) }
    ensures first { IfOk result (λ faults. IfSome (slice_get faults.items 0) (λ fault. IsLeastFault fault (view document.now))) }
{
    let faults = whole_faults(alloc, document)?;
    if !faults.is_empty() {
        return Ok(faults);
    }
    request_faults(alloc, elements_in(document))
}

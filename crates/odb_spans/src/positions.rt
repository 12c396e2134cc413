//! Where the elements lie that the places of many faults name, in one scan.

ghost use Rattle.std.specs.Prelude.{◌<◌, length, IfOk, IfSome, OnErr, Some};
ghost use Rattle.std.specs.List.{AllZip};
ghost use Rattle.serde_json.specs.Data.{Data};
ghost use Rattle.odb_doc.specs.Documents.{IsJson};
ghost use Rattle.odb_spans.specs.Parts.{LieRequests};
ghost use Rattle.odb_spans.specs.Positions.{IsPosition, Stands, ValueLiesAt};
ghost use Rattle.odb_spans.specs.Spans.{IsWithin};

use crate::locate::{elements_in, error_at, span_at, span_by};
use crate::parsing::ParseError;
use crate::position::Position;
use crate::span::Span;
use crate::walk::value_start;
use odb_doc::{Place, Refusal};
use std::alloc::{AllocError, Global};

/// Returns where the requests of a batch lie, if the last fault is one of a request.
fn requests_in(alloc: Global, document: &[u8], faults: &[Refusal]) -> Result<Vec<Span>, AllocError>
    ensures found { IfOk result (λ found. LieRequests document.now found.items) }
    ensures memory { OnErr result (0 < length faults.now) }
{
    match faults.last() {
        Some(
            Refusal {
                place: Place::Request(_),
                ..
            },
        ) => elements_in(alloc, document, value_start(document), "requests"),
        _ => Ok(Vec::new(alloc)),
    }
}

/// Returns where the value that a place names lies, without a scan if it is one of these requests.
fn span_among(
    alloc: Global,
    document: &[u8],
    error: Option<ParseError>,
    requests: &[Span],
    place: Place,
) -> Result<Span, AllocError>
    requires error { IfSome error (λ _. (d : Data) → ¬ IsJson document.now d) }
    requires requests { LieRequests document.now requests.now }
    ensures lies { IfOk result (λ span. (d : Data) → IsJson document.now d
        → ValueLiesAt document.now span d place) }
    ensures within { IfOk result (λ span. IsWithin (length document.now) (Some span)) }
{
    match place {
        Place::Request(at) => match span_at(requests, at) {
            Some(request) => Ok(request),
            None => span_by(alloc, document, error, place),
        },
        _ => span_by(alloc, document, error, place),
    }
}

/// Returns the position of a place, with lines and columns counted on from an earlier position.
fn next_position(
    alloc: Global,
    document: &[u8],
    error: Option<ParseError>,
    requests: &[Span],
    last: Position,
    place: Place,
) -> Result<Position, AllocError>
    requires error { IfSome error (λ _. (d : Data) → ¬ IsJson document.now d) }
    requires requests { LieRequests document.now requests.now }
    requires counts { IsPosition document.now last }
    ensures { IfOk result (Stands document.now place) }
{
    let span = span_among(alloc, document, error, requests, place)?;
    Ok(last.moved_to(document, span))
}

/// Returns for each fault where the element begins and ends that its place names, as [`crate::position_of`] does.
///
/// Costs O(n) for a document of n bytes and any number of faults, if all are of requests and come in the
/// order of their positions, as those of a check do. A fault of a whole document costs O(n).
///
/// # Errors
///
/// If an allocation fails. Not for no faults.
pub fn positions_of(
    alloc: Global,
    document: &[u8],
    faults: &[Refusal],
) -> Result<Vec<Position>, AllocError>
    ensures stand { IfOk result (λ positions. AllZip (λ fault. Stands document.now fault.place)
        faults.now positions.items) }
    ensures memory { OnErr result (0 < length faults.now) }
{
    let error = match faults.first() {
        Some(fault) => error_at(alloc, document, fault.place)?,
        None => None,
    };
    positions_by(alloc, document, error, faults)
}

/// Returns what [`positions_of`] returns of a document that [`crate::parse`] has parsed: it is not parsed again. `error`
/// is where the parser stopped in it, if it is not JSON.
///
/// # Errors
///
/// Those of [`positions_of`].
pub fn positions_by(
    alloc: Global,
    document: &[u8],
    error: Option<ParseError>,
    faults: &[Refusal],
) -> Result<Vec<Position>, AllocError>
    requires { IfSome error (λ _. (d : Data) → ¬ IsJson document.now d) }
    ensures stand { IfOk result (λ positions. AllZip (λ fault. Stands document.now fault.place)
        faults.now positions.items) }
    ensures memory { OnErr result (0 < length faults.now) }
{
    let requests = requests_in(alloc, document, faults)?;
    let mut positions = Vec::with_capacity(alloc, faults.len())?;
    let mut last = Position::START;
    for fault in faults {
        last = next_position(alloc, document, error, &requests, last, fault.place)?;
        positions.push(last)?;
    }
    Ok(positions)
}

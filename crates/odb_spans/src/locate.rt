//! Where the element that a place names lies.

ghost use Rattle.std.specs.Prelude.{◌≡◌, ◌≤◌, ◌<◌, ◌+◌, length, slice_get, IfOk, IfSome, None, OnErr, Some};
ghost use Rattle.serde_json.specs.Data.{Data};
ghost use Rattle.odb_doc.specs.Documents.{IsJson};
ghost use Rattle.odb_spans.specs.Positions.{ArePartsOf, IsTextAt, IsWhole, LiesIn, LiesInPair, LiesInPart, Stands, StandsInPair, ValueLiesAt};
ghost use Rattle.odb_spans.specs.Positions as spec;
ghost use Rattle.odb_spans.specs.Parts.{FindsElements, GivesPair};
ghost use Rattle.odb_spans.specs.Spans.{IsWithin};

use crate::byte::has_byte;
use crate::extent::value_end;
use crate::fault::fault_in;
use crate::item::{items_at, next_item};
use crate::member::last_member;
use crate::parsing::{ParseError, error_in};
use crate::position::Position;
use crate::span::Span;
use crate::walk::value_start;
use odb_doc::Place;
use std::alloc::{AllocError, Global};

/// Returns where the elements of the array at a member of the document's object lie, in order; none if
/// there is no such array. `start` is where the document's value begins.
pub(crate) fn elements_in(
    alloc: Global,
    document: &[u8],
    start: usize,
    name: &str,
) -> Result<Vec<Span>, AllocError>
    requires { start ≤ length document.now }
    ensures found { IfOk result (λ found. FindsElements name.now document.now start found.items) }
    ensures some { IfOk result (λ found. 0 < length found.items → start < length document.now) }
    ensures memory { OnErr result (start < length document.now) }
{
    if !has_byte(document, start, b'{') {
        return Ok(Vec::new(alloc));
    }
    match last_member(alloc, document, start + 1, name)? {
        Some(value) => items_at(alloc, document, value.start),
        None => Ok(Vec::new(alloc)),
    }
}

/// Returns the span at a position of the list, if there is one.
pub(crate) fn span_at(spans: &[Span], position: usize) -> Option<Span>
    ensures { result ≡ slice_get spans.now position }
{
    spans.get(position).copied()
}

/// Returns where the value of a document lies.
fn whole_span(document: &[u8]) -> Span
    ensures lies { (d : Data) → IsJson document.now d → IsWhole document.now result d }
    ensures within { IsWithin (length document.now) (Some result) }
{
    let start = value_start(document);
    Span {
        start,
        end: value_end(document, start),
    }
}

/// Returns where the element at a position of the array at a member lies, or the document's value if there is no such
/// element.
fn element_span(
    alloc: Global,
    document: &[u8],
    name: &str,
    position: usize,
) -> Result<Span, AllocError>
    ensures lies { IfOk result (λ span. (d : Data) → IsJson document.now d
        → LiesIn document.now span name.now position d) }
    ensures within { IfOk result (λ span. IsWithin (length document.now) (Some span)) }
    ensures memory { OnErr result (0 < length document.now) }
{
    let start = value_start(document);
    let elements = elements_in(alloc, document, start, name)?;
    match span_at(&elements, position) {
        Some(element) => Ok(element),
        None => Ok(whole_span(document)),
    }
}

/// Returns where the value that a place names lies in a document that is JSON.
fn value_span(alloc: Global, document: &[u8], place: Place) -> Result<Span, AllocError>
    ensures lies { IfOk result (λ span. (d : Data) → IsJson document.now d
        → ValueLiesAt document.now span d place) }
    ensures within { IfOk result (λ span. IsWithin (length document.now) (Some span)) }
    ensures memory { OnErr result (0 < length document.now) }
{
    match place {
        Place::Batch | Place::Outcomes | Place::Responses | Place::Events => {
            Ok(whole_span(document))
        }
        Place::Request(at) => element_span(alloc, document, "requests", at),
        Place::Outcome(at) => element_span(alloc, document, "outcomes", at),
        Place::Response(at) => element_span(alloc, document, "responses", at),
        Place::Event(at) => element_span(alloc, document, "events", at),
    }
}

/// Returns whether a fault with this place is in a batch document, not in a second one.
pub fn is_in_batch(place: Place) -> bool
    ensures { result ≡ spec.is_in_batch place }
{
    matches!(place, Place::Batch | Place::Request(_))
}

/// Returns where the parser stops in a document, for the place of a whole document. A document with a fault at
/// an element is JSON, so it is not parsed again.
pub(crate) fn error_at(
    alloc: Global,
    document: &[u8],
    place: Place,
) -> Result<Option<ParseError>, AllocError>
    ensures fault { IfOk result (λ found. IfSome found (λ _. (d : Data) → ¬ IsJson document.now d)) }
    ensures memory { OnErr result (0 < length document.now) }
{
    match place {
        Place::Batch | Place::Outcomes | Place::Responses | Place::Events => {
            error_in(alloc, document)
        }
        Place::Request(_) | Place::Outcome(_) | Place::Response(_) | Place::Event(_) => Ok(None),
    }
}

/// Returns where the first wrong byte of a document lies that is not JSON, by where the parser stopped: an empty span.
fn error_span(alloc: Global, document: &[u8], error: ParseError) -> Result<Span, AllocError>
    ensures within { IfOk result (λ span. IsWithin (length document.now) (Some span)) }
    ensures memory { OnErr result (0 < length document.now) }
{
    let at = fault_in(alloc, document, error)?;
    Ok(Span { start: at, end: at })
}

/// Returns where the value that a place names lies in a document, by where the parser stopped in one that is not JSON.
pub(crate) fn span_by(
    alloc: Global,
    document: &[u8],
    error: Option<ParseError>,
    place: Place,
) -> Result<Span, AllocError>
    requires { IfSome error (λ _. (d : Data) → ¬ IsJson document.now d) }
    ensures lies { IfOk result (λ span. (d : Data) → IsJson document.now d
        → ValueLiesAt document.now span d place) }
    ensures within { IfOk result (λ span. IsWithin (length document.now) (Some span)) }
    ensures memory { OnErr result (0 < length document.now) }
{
    match error {
        Some(error) => error_span(alloc, document, error),
        None => value_span(alloc, document, place),
    }
}

/// Returns where the two documents of a pair lie in its line, none if its value is not an array of two.
fn pair_in(line: &[u8], start: usize) -> Option<(Span, Span)>
    requires { start ≤ length line.now }
    ensures { GivesPair line.now start result }
{
    if !has_byte(line, start, b'[') {
        return None;
    }
    let batch = next_item(line, start + 1)?;
    let second = next_item(line, batch.end)?;
    match next_item(line, second.end) {
        Some(_) => None,
        None => Some((batch, second)),
    }
}

/// Returns where a batch and a second document lie in a line whose value is an array of both, `None` if it is no such
/// array. Of a line that is not JSON, too, the spans lie within it.
///
/// Costs O(n) for a line of n bytes.
pub fn documents_in(line: &[u8]) -> Option<(Span, Span)>
    ensures found { IfSome result (λ found. (d : Data) → IsJson line.now d
        → ArePartsOf line.now found.0 found.1 d) }
    ensures within { IfSome result (λ found. IsWithin (length line.now) (Some found.0)
        × IsWithin (length line.now) (Some found.1)) }
    ensures none { result ≡ None → (batch second : Data) → ¬ IsJson line.now (spec.pair batch second) }
{
    pair_in(line, value_start(line))
}

/// Returns where the value that a place names lies in a part of a line that is a document.
fn span_in_part(alloc: Global, line: &[u8], part: Span, place: Place) -> Result<Span, AllocError>
    requires order { part.start ≤ part.end }
    requires within { part.end ≤ length line.now }
    ensures lies { IfOk result (λ span. (d : Data) → IsTextAt line.now part d
        → LiesInPart line.now part span d place) }
    ensures within { IfOk result (λ span. IsWithin (length line.now) (Some span)) }
    ensures memory { OnErr result (0 < length line.now) }
{
    let span = value_span(alloc, part.bytes_in(line), place)?;
    Ok(Span {
        start: part.start + span.start,
        end: part.start + span.end,
    })
}

/// Returns where the value that a place names lies in a line that is JSON and holds a pair, or where the line's value lies
/// if that is not a pair.
fn value_span_in_pair(alloc: Global, line: &[u8], place: Place) -> Result<Span, AllocError>
    ensures lies { IfOk result (λ span. LiesInPair line.now span place) }
    ensures within { IfOk result (λ span. IsWithin (length line.now) (Some span)) }
    ensures memory { OnErr result (0 < length line.now) }
{
    match pair_in(line, value_start(line)) {
        Some((batch, second)) => {
            if is_in_batch(place) {
                span_in_part(alloc, line, batch, place)
            } else {
                span_in_part(alloc, line, second, place)
            }
        }
        None => Ok(whole_span(line)),
    }
}

/// Returns where the value that a place names lies in a line that holds a pair.
fn span_in_pair_by(
    alloc: Global,
    line: &[u8],
    error: Option<ParseError>,
    place: Place,
) -> Result<Span, AllocError>
    requires { IfSome error (λ _. (d : Data) → ¬ IsJson line.now d) }
    ensures lies { IfOk result (λ span. LiesInPair line.now span place) }
    ensures within { IfOk result (λ span. IsWithin (length line.now) (Some span)) }
    ensures memory { OnErr result (0 < length line.now) }
{
    match error {
        Some(error) => error_span(alloc, line, error),
        None => value_span_in_pair(alloc, line, place),
    }
}

/// Returns where the element that a place names begins in a document, and where it ends.
///
/// `Request` names an element of `requests`, `Outcome` one of `outcomes`, `Response` one of `responses`
/// and `Event` one of `events`. If a name repeats in an object, its last member counts. If there is no
/// such element, and for the place of a whole document, the position is that of the document's value.
///
/// The element ends without a blank, and lies in one place: [`crate::laws::one_element`]. If the document is not JSON, the
/// position for a whole document is that of the first byte that cannot be there, or the end of a document that ends too
/// soon, and its end is the same. A document larger than [`odb_doc::MAX_DOCUMENT_BYTES`] is not parsed: the position is
/// that of its value.
///
/// Costs O(n) for a document of n bytes; if it is not JSON, O(k log k) more for a wrong token of k bytes.
///
/// # Errors
///
/// If memory for the document's value, or for a name while it is compared, cannot be allocated. Not for
/// an empty document.
pub fn position_of(alloc: Global, document: &[u8], place: Place) -> Result<Position, AllocError>
    ensures stands { IfOk result (λ position. Stands document.now place position) }
    ensures memory { OnErr result (0 < length document.now) }
{
    let error = error_at(alloc, document, place)?;
    position_by(alloc, document, error, place)
}

/// Returns what [`position_of`] returns of a document that [`crate::parse`] has parsed: it is not parsed again. `error`
/// is where the parser stopped in it, if it is not JSON.
///
/// # Errors
///
/// Those of [`position_of`].
pub fn position_by(
    alloc: Global,
    document: &[u8],
    error: Option<ParseError>,
    place: Place,
) -> Result<Position, AllocError>
    requires { IfSome error (λ _. (d : Data) → ¬ IsJson document.now d) }
    ensures stands { IfOk result (λ position. Stands document.now place position) }
    ensures memory { OnErr result (0 < length document.now) }
{
    let span = span_by(alloc, document, error, place)?;
    Ok(Position::at(document, span))
}

/// Returns where the element that a place names begins and ends in a line that holds an array of a batch and a
/// second document: `Batch` and `Request` are places in the first, the others in the second.
///
/// In its document the element is found as by [`position_of`]. If the line is not an array of two, the
/// position is that of the line's value; if it is not JSON, the position for a whole document is that of
/// the first byte that cannot be there.
///
/// Costs O(n) for a line of n bytes.
///
/// # Errors
///
/// As [`position_of`].
pub fn position_in_pair(alloc: Global, line: &[u8], place: Place) -> Result<Position, AllocError>
    ensures stands { IfOk result (λ position. StandsInPair line.now place position) }
    ensures memory { OnErr result (0 < length line.now) }
{
    let error = error_at(alloc, line, place)?;
    position_in_pair_by(alloc, line, error, place)
}

/// Returns what [`position_in_pair`] returns of a line that [`crate::parse`] has parsed: it is not parsed again. `error`
/// is where the parser stopped in it, if it is not JSON.
///
/// # Errors
///
/// As [`position_of`].
pub fn position_in_pair_by(
    alloc: Global,
    line: &[u8],
    error: Option<ParseError>,
    place: Place,
) -> Result<Position, AllocError>
    requires { IfSome error (λ _. (d : Data) → ¬ IsJson line.now d) }
    ensures stands { IfOk result (λ position. StandsInPair line.now place position) }
    ensures memory { OnErr result (0 < length line.now) }
{
    let span = span_in_pair_by(alloc, line, error, place)?;
    Ok(Position::at(line, span))
}

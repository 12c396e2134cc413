//! Where members, elements and documents lie in bytes that are JSON: two searches find one place of each.

ghost use Rattle.std.specs.Prelude.{◌≡◌, ◌≤◌, ◌<◌, ℕ, IfSome, Some, codes, length, slice_get};
ghost use Rattle.std.specs.List.{AllZip};
ghost use Rattle.serde_json.specs.Data.{Data};
ghost use Rattle.odb_doc.specs.Documents.{IsJson};
ghost use Rattle.odb_doc.specs.Members.{elements_at};
ghost use Rattle.odb_spans.specs.Positions.{ArePartsOf, BeginAlike, LiesIn, Stands, StandsInPair, span_of};
ghost use Rattle.odb_spans.specs.Spans.{EachSpan, HasMemberAt, IsPlaceOfMember};

use odb_doc::{Place, parse};
use odb_spans::laws::{one_element, one_pair, one_place, one_position};
use odb_spans::{Position, Span, documents_in, members_in, position_in_pair, position_of};
use odb_testing::Two;
use std::alloc::Global;

/// Returns where a member of each element of an array lies, unless memory runs out.
fn members_of(alloc: Global, document: &[u8], list: &str, name: &str) -> Option<Vec<Option<Span>>>
    ensures { IfSome result (λ found. (d : Data) → IsJson document.now d
        → AllZip (HasMemberAt name.now document.now) (elements_at list.now d) found.items
        × EachSpan (IsPlaceOfMember list.now name.now document.now d) 0 found.items) }
{
    match members_in(alloc, document, list, name) {
        Ok(found) => Some(found),
        Err(_) => None,
    }
}

/// Finds a member of each element twice, if the document is JSON: each has one place.
fn members_twice(alloc: Global, document: &[u8], list: &str, name: &str) -> Two<Vec<Option<Span>>>
    ensures { IfSome result.0 (λ one. IfSome result.1 (λ other. one.items ≡ other.items)) }
{
    one_place();
    let Ok(_value) = parse(alloc, document) else {
        return (None, None);
    };
    (
        members_of(alloc, document, list, name),
        members_of(alloc, document, list, name),
    )
}

/// Returns where a place is in a document, unless memory runs out.
fn position_in(alloc: Global, document: &[u8], place: Place) -> Option<Position>
    ensures { IfSome result (Stands document.now place) }
{
    match position_of(alloc, document, place) {
        Ok(found) => Some(found),
        Err(_) => None,
    }
}

/// Finds a place twice, if the document is JSON: it begins at one line, column and offset.
fn position_twice(alloc: Global, document: &[u8], place: Place) -> Two<Position>
    ensures { IfSome result.0 (λ one. IfSome result.1 (BeginAlike one)) }
{
    one_position();
    let Ok(_value) = parse(alloc, document) else {
        return (None, None);
    };
    (
        position_in(alloc, document, place),
        position_in(alloc, document, place),
    )
}

/// Finds a request of a document twice: it lies in one place, with its end.
fn request_twice(alloc: Global, document: &[u8], at: usize) -> Two<Position>
    requires { (d element : Data) × IsJson document.now d
        × (slice_get (elements_at (codes "requests") d) at ≡ Some element) }
    ensures { IfSome result.0 (λ one. IfSome result.1 (λ other. span_of one ≡ span_of other)) }
{
    one_element();
    (
        position_in(alloc, document, Place::Request(at)),
        position_in(alloc, document, Place::Request(at)),
    )
}

/// Returns where a place is in a line of two documents, unless memory runs out.
fn position_in_line(alloc: Global, line: &[u8], place: Place) -> Option<Position>
    ensures { IfSome result (StandsInPair line.now place) }
{
    match position_in_pair(alloc, line, place) {
        Ok(found) => Some(found),
        Err(_) => None,
    }
}

/// Finds a place in a line of two documents twice, if the line is JSON: it begins at one line, column and offset.
fn line_position_twice(alloc: Global, line: &[u8], place: Place) -> Two<Position>
    ensures { IfSome result.0 (λ one. IfSome result.1 (BeginAlike one)) }
{
    one_position();
    let Ok(_value) = parse(alloc, line) else {
        return (None, None);
    };
    (
        position_in_line(alloc, line, place),
        position_in_line(alloc, line, place),
    )
}

/// Finds the two documents in a line twice, if it is JSON: each lies in one place.
fn documents_twice(alloc: Global, line: &[u8]) -> Two<(Span, Span)>
    ensures { IfSome result.0 (λ one. IfSome result.1 (λ other. (one.0 ≡ other.0) × (one.1 ≡ other.1))) }
{
    one_pair();
    let Ok(_value) = parse(alloc, line) else {
        return (None, None);
    };
    (documents_in(line), documents_in(line))
}

/// A batch with one body, and a line with it and a second document.
const BATCH: &[u8] = br#" {"requests":[{"id":"a","body":[1, 2]},7]}"#;

const LINE: &[u8] = br#"[{"requests":[{}]},
 {"responses":[{}]}]"#;

/// Whether both searches found the body alone, at these bytes.
fn are_bodies(both: &Two<Vec<Option<Span>>>, start: usize, end: usize) -> bool {
    match both {
        (Some(one), Some(other)) => {
            one == other && one.as_slice() == [Some(Span { start, end }), None].as_slice()
        }
        _ => false,
    }
}

/// Whether both searches found a position at this line, column and offset.
fn are_at(both: Two<Position>, line: usize, column: usize, offset: usize) -> bool {
    match both {
        (Some(one), Some(other)) => {
            one == other && (one.line, one.column, one.offset) == (line, column, offset)
        }
        _ => false,
    }
}

#[test]
fn each_has_one_place(rt: HostRuntime) {
    let alloc = rt.alloc();
    assert!(rt; are_bodies(&members_twice(alloc, BATCH, "requests", "body"), 31, 37));
    assert!(rt; are_at(position_twice(alloc, BATCH, Place::Request(1)), 1, 40, 39));
    assert!(rt;
        are_at(
            line_position_twice(alloc, LINE, Place::Response(0)),
            2,
            16,
            35
        )
    );
    assert!(rt; documents_twice(alloc, LINE).0.is_some());
}

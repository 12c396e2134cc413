//! What holds of the places of members, elements and documents: there is one of each.
//!
//! The laws are clauses of functions that change nothing. They speak of the words that the clauses of [`crate::members_in`],
//! [`crate::bodies_in`], [`crate::position_of`] and [`crate::documents_in`] use.

ghost use Rattle.std.specs.Prelude.{◌≡◌, ℕ, List, Option, Some, slice_get};
ghost use Rattle.std.specs.List.{AllZip};
ghost use Rattle.serde_json.specs.Data.{Data};
ghost use Rattle.odb_doc.specs.Documents.{IsJson};
ghost use Rattle.odb_doc.specs.Members.{elements_at};
ghost use Rattle.odb_doc.specs.declared.fault.Place.{Place};
ghost use Rattle.odb_spans.specs.Positions.{ArePartsOf, BeginAlike, LiesIn, Stands, StandsInPair};
ghost use Rattle.odb_spans.specs.Spans.{EachSpan, HasMemberAt, IsPlaceOfMember};
ghost use Rattle.odb_spans.specs.declared.position.Position.{Position};
ghost use Rattle.odb_spans.specs.declared.span.Span.{Span};

/// A member of an element has one place: two lists of spans that are where the members of a name lie in a document are
/// equal. So the bytes of a document determine those of each body.
pub fn one_place()
    ensures { (list name document : List ℕ) (d : Data) (spans others : List (Option Span))
        → IsJson document d → AllZip (HasMemberAt name document) (elements_at list d) spans
        → EachSpan (IsPlaceOfMember list name document d) 0 spans
        → AllZip (HasMemberAt name document) (elements_at list d) others
        → EachSpan (IsPlaceOfMember list name document d) 0 others → spans ≡ others }
{}

/// An element of an array has one place: two spans at which the element at a position lies are equal. So the bytes of a
/// document determine where each begins and ends.
pub fn one_element()
    ensures { (name document : List ℕ) (d element : Data) (at : ℕ) (span other : Span)
        → IsJson document d → slice_get (elements_at name d) at ≡ Some element
        → LiesIn document span name at d → LiesIn document other name at d → span ≡ other }
{}

/// Each of the two documents in a line lies in one place: its bytes are determined by those of the line.
pub fn one_pair()
    ensures { (line : List ℕ) (d : Data) (first second other another : Span) → IsJson line d
        → ArePartsOf line first second d → ArePartsOf line other another d
        → (first ≡ other) × (second ≡ another) }
{}

/// What a place names begins at one line, column and offset: of a document that is JSON (`document`), and of a line
/// that holds two documents (`line`).
pub fn one_position()
    ensures document { (document : List ℕ) (d : Data) (place : Place) (one other : Position)
        → IsJson document d → Stands document place one → Stands document place other
        → BeginAlike one other }
    ensures line { (line : List ℕ) (d : Data) (place : Place) (one other : Position) → IsJson line d
        → StandsInPair line place one → StandsInPair line place other → BeginAlike one other }
{}

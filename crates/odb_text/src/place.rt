//! The text of a place, read.

ghost use Rattle.std.specs.Prelude.{◌≡◌, ◌≢◌, ◌^◌, ◌<◌, ℕ, IfSome, None};
ghost use Rattle.std.specs.Fmt.{decimal};
ghost use Rattle.odb_doc.specs.declared.fault.Place.{Place};
ghost use Rattle.odb_text.specs.Lines.{place_text};
ghost use Rattle.odb_text.specs.Places.{FitsWord, IsElement};

use odb_doc::Place;
use std::str::from_utf8;

/// Returns the number whose decimal digits these are, without a sign or a 0 before them.
fn number_of(digits: &[u8]) -> Option<usize>
    ensures some { IfSome result (λ n. digits.now ≡ decimal n) }
    ensures none { result ≡ None → (n : ℕ) → n < 2 ^ 64 → digits.now ≢ decimal n }
{
    if digits == b"0".as_slice() {
        return Some(0);
    }
    if digits.is_empty() || digits[0] < b'1' || digits[0] > b'9' {
        return None;
    }
    match from_utf8(digits) {
        Ok(text) => text.parse().ok(),
        Err(_) => None,
    }
}

/// Returns the element of a document that a text names.
fn element_of(text: &[u8]) -> Option<Place>
    ensures some { IfSome result (λ place. text.now ≡ place_text place) }
    ensures none { result ≡ None → (place : Place) → FitsWord place → IsElement place → text.now ≢ place_text place }
{
    if let Some(digits) = text.strip_prefix(b"/requests/") {
        return Some(Place::Request(number_of(digits)?));
    }
    if let Some(digits) = text.strip_prefix(b"/outcomes/") {
        return Some(Place::Outcome(number_of(digits)?));
    }
    if let Some(digits) = text.strip_prefix(b"/responses/") {
        return Some(Place::Response(number_of(digits)?));
    }
    let digits = text.strip_prefix(b"/events/")?;
    Some(Place::Event(number_of(digits)?))
}

/// Returns the place that a text names as the line of a fault does: `batch`, `outcomes`, `responses` or `events`, or the
/// path to an element, as `/requests/3`. `None` if it names none.
pub fn place_of(text: &[u8]) -> Option<Place>
    ensures some { IfSome result (λ place. text.now ≡ place_text place) }
    ensures none { result ≡ None → (place : Place) → FitsWord place → text.now ≢ place_text place }
{
    if text == b"batch".as_slice() {
        return Some(Place::Batch);
    }
    if text == b"outcomes".as_slice() {
        return Some(Place::Outcomes);
    }
    if text == b"responses".as_slice() {
        return Some(Place::Responses);
    }
    if text == b"events".as_slice() {
        return Some(Place::Events);
    }
    element_of(text)
}

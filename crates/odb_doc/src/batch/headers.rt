//! The headers of a request, lent from its document, in byte order of their names in lower case.

ghost use Rattle.std.specs.Prelude.{◌≡◌, ◌↔◌, true, false, IsTrue, IsSome, map, option_map, IfNone, IfOk, IfSome, bytes_eq};
ghost use Rattle.std.specs.Cmp.Lexicographic.{slice_cmp};
ghost use Rattle.std.specs.List.{IsDistinct};
ghost use Rattle.std.specs.List.Sorted.{IsPermutation, IsSorted};
ghost use Rattle.std.specs.Map.{keys_of};
ghost use Rattle.std.specs.Ordering.{is_lt, nat_cmp};
ghost use Rattle.std.specs.Str.{str_to_ascii_lowercase};
ghost use Rattle.serde_json.specs.Data.{Data};
ghost use Rattle.serde_json.specs.View.{members_view};
ghost use Rattle.odb_doc.specs.declared.fault.RequestRule.TheVariants as rules;
ghost use Rattle.odb_doc.specs.batch.MembersFound.{AreMembersOf, data_of};
ghost use Rattle.odb_doc.specs.batch.Shapes.{BreaksRequest};
ghost use Rattle.odb_doc.specs.HeaderMaps.{HasUnordered, by_name, written};
ghost use Rattle.odb_doc.specs.Members as spec;
ghost use Rattle.odb_doc.specs.Headers.{HasHeaders, IsInOrder, lent_header, lent_headers, listed_headers, listed_in, text_members};

use crate::batch::folded::{Header, Headers};
use crate::batch::members::Members;
use crate::member::given;
use serde_json::{Map, Value};
use std::alloc::{AllocError, Global};
use std::cmp::Ordering;

/// Compares two texts by their bytes, with ASCII letters in lower case.
fn folded_cmp(x: &[u8], y: &[u8]) -> Ordering
    ensures { result ≡ slice_cmp nat_cmp (str_to_ascii_lowercase x.now) (str_to_ascii_lowercase y.now) }
{
    for k in 0..x.len() {
        if k == y.len() {
            return Ordering::Greater;
        }
        match x[k].to_ascii_lowercase().cmp(&y[k].to_ascii_lowercase()) {
            Ordering::Equal => {}
            order => return order,
        }
    }
    if x.len() < y.len() {
        Ordering::Less
    } else {
        Ordering::Equal
    }
}

/// Returns the members of an object; `None` if a value is not a string.
#[inline(always)]
fn texts_of<'a>(
    alloc: Global,
    members: &'a Map<String, Value>,
) -> Result<Option<Vec<Header<'a>>>, AllocError>
    ensures { IfOk result (λ found. option_map (λ headers. map written headers.items) found
        ≡ text_members (members_view members.now.entries)) }
{
    let mut found = Vec::with_capacity(alloc, members.len())?;
    for (name, value) in members.iter() {
        let Some(text) = value.as_str() else {
            return Ok(None);
        };
        found.push(Header {
            written: name.as_str(),
            value: text,
        })?;
    }
    Ok(Some(found))
}

/// Returns whether each name comes before the next.
#[inline(always)]
fn are_ascending(headers: &[Header<'_>]) -> bool
    ensures ordered { result ≡ true → IsInOrder (map lent_header headers.now) }
    ensures some { result ≡ false → HasUnordered headers.now }
{
    headers.is_sorted_by(
        |x: &Header<'_>, y: &Header<'_>| -> bool
            ensures { result ≡ is_lt (by_name x.now y.now) }
        { folded_cmp(x.written.as_bytes(), y.written.as_bytes()) == Ordering::Less },
    )
}

/// Sorts the headers by their names.
fn sort(headers: &mut Vec<Header<'_>>)
    ensures same { IsPermutation headers.old.items headers.new.items }
    ensures sorted { IsSorted by_name headers.new.items }
{
    headers.sort_unstable_by(
        |x: &Header<'_>, y: &Header<'_>| -> Ordering
            ensures { result ≡ by_name x.now y.now }
        { folded_cmp(x.written.as_bytes(), y.written.as_bytes()) },
    );
}

/// Returns the headers in order of their names; `None` if two have one name.
#[inline(always)]
fn in_order<'a>(mut headers: Vec<Header<'a>>) -> Option<Headers<'a>>
    ensures sorted { IfSome result (λ sorted. IsPermutation headers.entry.items sorted.entries.items
        × IsInOrder (lent_headers sorted)) }
    ensures twice { IfNone result (¬ IsDistinct bytes_eq (keys_of (map lent_header headers.entry.items))) }
{
    if are_ascending(&headers) {
        return Some(Headers { entries: headers });
    }
    sort(&mut headers);
    if are_ascending(&headers) {
        Some(Headers { entries: headers })
    } else {
        None
    }
}

/// Returns the headers of a request as they come; `None` if they are not an object of strings.
#[inline(always)]
pub(crate) fn listed_headers<'a>(
    alloc: Global,
    member: Option<&'a Value>,
) -> Result<Option<Vec<Header<'a>>>, AllocError>
    ensures { IfOk result (λ found. option_map (λ headers. map written headers.items) found
        ≡ listed_in (data_of member.entry)) }
{
    let Some(value) = given(member) else {
        return Ok(Some(Vec::new(alloc)));
    };
    match value.as_object() {
        Some(object) => texts_of(alloc, object),
        None => Ok(None),
    }
}

/// Returns the headers of a request in order of their names; `None` if they are not an object of strings,
/// or two have one name.
#[inline(always)]
pub(crate) fn headers_of<'a>(
    alloc: Global,
    members: &Members<'a>,
) -> Result<Option<Headers<'a>>, AllocError>
    ensures has { IfOk result (λ found. IfSome found (λ headers. (d : Data) → AreMembersOf d members.now
        → HasHeaders d (lent_headers headers))) }
    ensures none { IfOk result (λ found. IfNone found ((d : Data) → AreMembersOf d members.now
        → IsSome (listed_headers d) → BreaksRequest rules.HeaderTwice d)) }
{
    match listed_headers(alloc, members.headers)? {
        Some(headers) => Ok(in_order(headers)),
        None => Ok(None),
    }
}

/// Returns the names of the members of an object, each as a header without a value.
fn names_of<'a>(
    alloc: Global,
    members: &'a Map<String, Value>,
) -> Result<Vec<Header<'a>>, AllocError>
    ensures { IfOk result (λ found. keys_of (map lent_header found.items)
        ≡ map str_to_ascii_lowercase (spec.names_of (members_view members.now.entries))) }
{
    let mut found = Vec::with_capacity(alloc, members.len())?;
    for (name, _) in members.iter() {
        found.push(Header {
            written: name.as_str(),
            value: "",
        })?;
    }
    Ok(found)
}

/// Returns whether two names of an object differ in ASCII case alone.
pub(crate) fn has_name_twice(
    alloc: Global,
    members: &Map<String, Value>,
) -> Result<bool, AllocError>
    ensures { IfOk result (λ twice. IsTrue twice ↔ ¬ IsDistinct bytes_eq
        (map str_to_ascii_lowercase (spec.names_of (members_view members.now.entries)))) }
{
    Ok(in_order(names_of(alloc, members)?).is_none())
}

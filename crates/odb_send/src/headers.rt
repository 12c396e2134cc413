//! The headers of a request as the rest has them.

ghost use Rattle.std.specs.Prelude.{◌≡◌, ◌++◌, ◌∷◌, false, codes, map, OnOk, option_map, string_bytes, unwrap_or};
ghost use Rattle.serde_json.specs.Data.{string};
ghost use Rattle.serde_json.specs.Written.{comma_if, compact_text};
ghost use Rattle.odb_doc.specs.batch.Records.{record_of};
ghost use Rattle.odb_doc.specs.canonical.Canonical.{headers_value};
ghost use Rattle.odb_doc.specs.canonical.CanonicalParts.{headers_left};
ghost use Rattle.odb_doc.specs.Headers.{lent_header};
ghost use Rattle.odb_doc.specs.Texts.{member_part};
ghost use Rattle.odb_send.specs.Rests.{change_of, rest_header};

use crate::changes::Change;
use odb_doc::text::{push_if, push_quoted};
use odb_doc::{Header, Request};
use std::alloc::{AllocError, Global};

/// Returns the tag, or the value if there is none.
fn tag_or<'a>(tag: &'a Option<String>, value: &'a str) -> &'a str
    ensures { result.now ≡ unwrap_or (option_map string_bytes tag.now) value.now }
{
    match tag {
        Some(tag) => tag.as_str(),
        None => value,
    }
}

/// Returns the value of a header in the rest.
fn rest_value<'a>(header: &Header<'a>, change: &'a Change) -> &'a str
    ensures { result.now ≡ (rest_header (change_of change.now) (lent_header header.now)).1 }
{
    if header.is_named("if-match") {
        tag_or(&change.if_match, header.value)
    } else if header.is_named("if-none-match") {
        tag_or(&change.if_none_match, header.value)
    } else {
        header.value
    }
}

/// Appends a header as the rest has it, with a comma first unless it is the first header.
fn push_header(
    alloc: Global,
    text: &mut String,
    later: bool,
    header: &Header<'_>,
    change: &Change,
) -> Result<(), AllocError>
    ensures { OnOk result (string_bytes text.new ≡ string_bytes text.old
        ++ (comma_if later ++ (compact_text (string (rest_header (change_of change.now) (lent_header header.now)).0)
        ++ 58 ∷ compact_text (string (rest_header (change_of change.now) (lent_header header.now)).1)))) }
{
    let name = header.name(alloc)?;
    push_if(text, later, ",")?;
    push_quoted(alloc, text, name.as_str())?;
    text.push_str(":")?;
    push_quoted(alloc, text, rest_value(header, change))
}

/// Appends the headers as the members of an object, and the end of the object.
fn push_members(
    alloc: Global,
    text: &mut String,
    headers: &[Header<'_>],
    change: &Change,
) -> Result<(), AllocError>
    ensures { OnOk result (string_bytes text.new ≡ string_bytes text.old
        ++ headers_left false (map (rest_header (change_of change.now)) (map lent_header headers.now))) }
{
    for k in 0..headers.len() {
        push_header(alloc, text, k > 0, &headers[k], change)?;
    }
    text.push_str("}")
}

/// Appends the member `headers` as the rest has it and a comma, if there are headers.
pub(crate) fn push_headers(
    alloc: Global,
    text: &mut String,
    request: &Request<'_>,
    change: &Change,
) -> Result<(), AllocError>
    ensures { OnOk result (string_bytes text.new ≡ string_bytes text.old
        ++ member_part (codes "\"headers\":")
        (headers_value (map (rest_header (change_of change.now)) (record_of request.now).headers))) }
{
    let headers = request.headers.as_slice();
    if headers.is_empty() {
        return Ok(());
    }
    text.push_str("\"headers\":{")?;
    push_members(alloc, text, headers, change)?;
    text.push_str(",")
}

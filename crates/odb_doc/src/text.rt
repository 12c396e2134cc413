//! Writers of JSON text: they append a piece to a text, as compact JSON has it.
//!
//! If an allocation fails, the text may have received a part of the piece.

ghost use Rattle.std.specs.Prelude.{◌≡◌, ◌↔◌, ◌++◌, ◌∷◌, [], false, codes, option_map, Some, IsTrue, IfOk, IfSome, OnOk, string_bytes, if◌then◌else◌};
ghost use Rattle.std.specs.List.{AllPass};
ghost use Rattle.serde_json.specs.Data.{string};
ghost use Rattle.serde_json.specs.View.{view};
ghost use Rattle.serde_json.specs.Written.{compact_text, comma_if};
ghost use Rattle.odb_doc.specs.canonical.Canonical.{headers_value, names_value};
ghost use Rattle.odb_doc.specs.canonical.CanonicalParts.{headers_left, names_left};
ghost use Rattle.odb_doc.specs.Headers.{headers_in};
ghost use Rattle.odb_doc.specs.canonical.Quoting.{is_plain};
ghost use Rattle.odb_doc.specs.Names.{texts_in};
ghost use Rattle.odb_doc.specs.Texts.{member_part, request_end};
ghost use Rattle.odb_doc.specs.WholeNumbers.{IsWhole};

use odb_names::Method;
use serde_json::Value;
use std::alloc::{AllocError, Global};
use std::collections::BTreeMap;

/// Returns whether a JSON string contains the byte as it is: neither a control character, nor `"`,
/// nor `\`.
fn is_plain(byte: u8) -> bool
    ensures { result ≡ is_plain byte }
{
    byte >= 0x20 && byte != b'"' && byte != b'\\'
}

/// Returns whether nothing in the text has to be escaped.
fn are_plain(text: &str) -> bool
    ensures { IsTrue result ↔ AllPass is_plain text.now }
{
    text.as_bytes().iter().all(|byte| is_plain(*byte))
}

/// Returns the JSON text of a string.
fn quoted(alloc: Global, text: &str) -> Result<String, AllocError>
    ensures { IfOk result (λ quoted. string_bytes quoted ≡ compact_text (string text.now)) }
{
    Value::try_from_str(alloc, text)?.to_string(alloc)
}

/// Appends a piece in quotes, if nothing in it has to be escaped.
fn push_plain(text: &mut String, piece: &str) -> Result<(), AllocError>
    requires { AllPass is_plain piece.now }
    ensures { OnOk result (string_bytes text.new
        ≡ string_bytes text.old ++ compact_text (string piece.now)) }
{
    text.push_str("\"")?;
    text.push_str(piece)?;
    text.push_str("\"")
}

/// Appends the JSON text of a string.
pub fn push_quoted(alloc: Global, text: &mut String, piece: &str) -> Result<(), AllocError>
    ensures { OnOk result (string_bytes text.new
        ≡ string_bytes text.old ++ compact_text (string piece.now)) }
{
    if are_plain(piece) {
        push_plain(text, piece)
    } else {
        text.push_str(quoted(alloc, piece)?.as_str())
    }
}

/// Appends two lines in quotes, if nothing in them has to be escaped but the newline between them.
fn push_plain_lines(text: &mut String, first: &str, second: &str) -> Result<(), AllocError>
    requires first { AllPass is_plain first.now }
    requires second { AllPass is_plain second.now }
    ensures { OnOk result (string_bytes text.new
        ≡ string_bytes text.old ++ compact_text (string (first.now ++ 10 ∷ second.now))) }
{
    text.push_str("\"")?;
    text.push_str(first)?;
    text.push_str("\\n")?;
    text.push_str(second)?;
    text.push_str("\"")
}

/// Appends the JSON text of a string of two lines.
pub fn push_quoted_lines(
    alloc: Global,
    text: &mut String,
    first: &str,
    second: &str,
) -> Result<(), AllocError>
    ensures { OnOk result (string_bytes text.new
        ≡ string_bytes text.old ++ compact_text (string (first.now ++ 10 ∷ second.now))) }
{
    if are_plain(first) && are_plain(second) {
        return push_plain_lines(text, first, second);
    }
    let mut lines = String::from_str(alloc, first)?;
    lines.push_str("\n")?;
    lines.push_str(second)?;
    push_quoted(alloc, text, lines.as_str())
}

/// Appends a piece if the condition holds.
pub fn push_if(text: &mut String, holds: bool, piece: &str) -> Result<(), AllocError>
    ensures { OnOk result (string_bytes text.new
        ≡ string_bytes text.old ++ (if holds then piece.now else [])) }
{
    if holds { text.push_str(piece) } else { Ok(()) }
}

/// Appends the start of an object in a list, with a comma first unless it is the first element.
pub fn push_open(text: &mut String, later: bool) -> Result<(), AllocError>
    ensures { OnOk result (string_bytes text.new
        ≡ string_bytes text.old ++ (comma_if later ++ codes "{")) }
{
    if later {
        text.push_str(",{")
    } else {
        text.push_str("{")
    }
}

/// Appends `piece`, which is moved in. If it is longer than the capacity of `text`, it takes in what
/// `text` has and replaces it, so that its bytes are not copied to a second buffer.
fn push_owned(text: &mut String, mut piece: String) -> Result<(), AllocError>
    ensures { OnOk result (string_bytes text.new ≡ string_bytes text.old ++ string_bytes piece) }
{
    if piece.len() <= text.capacity() {
        return text.push_str(piece.as_str());
    }
    piece.insert_str(0, text.as_str())?;
    *text = piece;
    Ok(())
}

/// Appends the member `atomicityGroup`.
fn push_group_name(alloc: Global, text: &mut String, group: &str) -> Result<(), AllocError>
    ensures { OnOk result (string_bytes text.new ≡ string_bytes text.old
        ++ member_part (codes "\"atomicityGroup\":") (Some (string group.now))) }
{
    text.push_str("\"atomicityGroup\":")?;
    push_quoted(alloc, text, group)?;
    text.push_str(",")
}

/// Appends the member `atomicityGroup`, if there is a group.
pub fn push_group(alloc: Global, text: &mut String, group: Option<&str>) -> Result<(), AllocError>
    ensures { OnOk result (string_bytes text.new ≡ string_bytes text.old
        ++ member_part (codes "\"atomicityGroup\":")
        (option_map string (option_map (λ group. group.now) group.entry))) }
{
    match group {
        Some(group) => push_group_name(alloc, text, group),
        None => Ok(()),
    }
}

/// Appends the member `body`, if there is a body.
pub fn push_body(alloc: Global, text: &mut String, body: Option<&Value>) -> Result<(), AllocError>
    requires { IfSome (option_map (λ body. view body.now) body) IsWhole }
    ensures { OnOk result (string_bytes text.new ≡ string_bytes text.old
        ++ member_part (codes "\"body\":") (option_map (λ body. view body.now) body.entry)) }
{
    match body {
        Some(body) => {
            text.push_str("\"body\":")?;
            push_owned(text, body.to_string(alloc)?)?;
            text.push_str(",")
        }
        None => Ok(()),
    }
}

/// Appends the texts as the elements of an array, the end of the array, and a comma.
fn push_elements(alloc: Global, text: &mut String, elements: &[&str]) -> Result<(), AllocError>
    ensures { OnOk result (string_bytes text.new ≡ string_bytes text.old
        ++ (names_left false (texts_in elements.now) ++ codes ",")) }
{
    for k in 0..elements.len() {
        push_if(text, k > 0, ",")?;
        push_quoted(alloc, text, elements[k])?;
    }
    text.push_str("],")
}

/// Appends the member `dependsOn`, if there are names.
pub fn push_names(alloc: Global, text: &mut String, names: &[&str]) -> Result<(), AllocError>
    ensures { OnOk result (string_bytes text.new ≡ string_bytes text.old
        ++ member_part (codes "\"dependsOn\":") (names_value (texts_in names.now))) }
{
    if names.is_empty() {
        return Ok(());
    }
    text.push_str("\"dependsOn\":[")?;
    push_elements(alloc, text, names)
}

/// Appends a header, with a comma first unless it is the first header.
pub(crate) fn push_header(
    alloc: Global,
    text: &mut String,
    later: bool,
    name: &str,
    value: &str,
) -> Result<(), AllocError>
    ensures { OnOk result (string_bytes text.new ≡ string_bytes text.old
        ++ (comma_if later ++ (compact_text (string name.now)
        ++ 58 ∷ compact_text (string value.now)))) }
{
    push_if(text, later, ",")?;
    push_quoted(alloc, text, name)?;
    text.push_str(":")?;
    push_quoted(alloc, text, value)
}

/// Appends the headers as the members of an object, and the end of the object.
fn push_members(
    alloc: Global,
    text: &mut String,
    headers: &BTreeMap<String, String>,
) -> Result<(), AllocError>
    ensures { OnOk result (string_bytes text.new ≡ string_bytes text.old
        ++ headers_left false (headers_in headers.now)) }
{
    let mut later = false;
    for (name, value) in headers.iter() {
        push_header(alloc, text, later, name.as_str(), value.as_str())?;
        later = true;
    }
    text.push_str("}")
}

/// Appends the member `headers`, if there are headers.
pub fn push_headers(
    alloc: Global,
    text: &mut String,
    headers: &BTreeMap<String, String>,
) -> Result<(), AllocError>
    ensures { OnOk result (string_bytes text.new ≡ string_bytes text.old
        ++ member_part (codes "\"headers\":") (headers_value (headers_in headers.now))) }
{
    if headers.is_empty() {
        return Ok(());
    }
    text.push_str("\"headers\":{")?;
    push_members(alloc, text, headers)?;
    text.push_str(",")
}

/// Appends the members `id`, `method` and `url` of a request, and the end of its object.
pub fn push_request_end(
    alloc: Global,
    text: &mut String,
    id: &str,
    method: Method,
    url: &str,
) -> Result<(), AllocError>
    ensures { OnOk result (string_bytes text.new ≡ string_bytes text.old
        ++ request_end id.now method url.now) }
{
    text.push_str("\"id\":")?;
    push_quoted(alloc, text, id)?;
    text.push_str(",\"method\":\"")?;
    text.push_str(method.name())?;
    text.push_str("\",\"url\":")?;
    push_quoted(alloc, text, url)?;
    text.push_str("}")
}

//! The headers of outcomes, with their names in lower case, each name once.

ghost use Rattle.std.specs.Prelude.{◌≡◌, option_map, string_bytes, OnOk, IfOk, IfErr};
ghost use Rattle.std.specs.Str.{str_to_ascii_lowercase};
ghost use Rattle.serde_json.specs.View.{view};
ghost use Rattle.odb_doc.specs.BrokenRules.{OnlyIf};
ghost use Rattle.odb_doc.specs.HeaderMaps.{HoldsMembers, AreHeaders, AddsMember, RefusesMember};
ghost use Rattle.odb_doc.specs.Headers.{HoldsHeaders, IsHeaders, headers_in};

use crate::broken::Broken;
use crate::member::{into_members, text_of, unless_null};
use serde_json::{Map, Value};
use std::alloc::Global;
use std::collections::BTreeMap;

/// Returns the text in lower case.
pub(crate) fn lowercase(text: String) -> String
    ensures { string_bytes result ≡ str_to_ascii_lowercase (string_bytes text) }
{
    let mut folded = text;
    folded.make_ascii_lowercase();
    folded
}

/// Inserts the header that a member is, under its lower-cased name. Returns `bad` if the value is not
/// a string or the name is a duplicate; the caller then discards the map.
fn put<R: Copy>(
    headers: &mut BTreeMap<String, String>,
    name: String,
    value: Value,
    bad: R,
) -> Result<(), Broken<R>>
    ensures added { OnOk result (AddsMember (string_bytes name) (view value) headers.old
        headers.new) }
    ensures refused { IfErr result (OnlyIf bad (RefusesMember (string_bytes name) (view value)
        headers.old)) }
{
    let Some(text) = text_of(value) else {
        return Err(Broken::Rule(bad));
    };
    if headers.insert(lowercase(name), text)?.is_some() {
        return Err(Broken::Rule(bad));
    }
    Ok(())
}

/// Returns the headers of an object by their names in lower case, moved, or `bad` if a value is not a
/// string or two of these names are equal.
fn moved_headers<R: Copy>(
    alloc: Global,
    members: Map<String, Value>,
    bad: R,
) -> Result<BTreeMap<String, String>, Broken<R>>
    ensures has { IfOk result (HoldsMembers members.entries) }
    ensures none { IfErr result (OnlyIf bad (¬ AreHeaders members.entries)) }
{
    let mut headers = BTreeMap::new(alloc);
    for (name, value) in members {
        put(&mut headers, name, value, bad)?;
    }
    Ok(headers)
}

/// Moves the headers out of a member, by their names in lower case. A member that is absent or null
/// has none. Returns `bad` if it is not an object of strings, or two of these names are equal.
pub(crate) fn headers_from<R: Copy>(
    alloc: Global,
    member: Option<Value>,
    bad: R,
) -> Result<BTreeMap<String, String>, Broken<R>>
    ensures has { IfOk result (λ headers. HoldsHeaders (option_map view member)
        (headers_in headers)) }
    ensures none { IfErr result (OnlyIf bad (¬ IsHeaders (option_map view member))) }
{
    let Some(value) = unless_null(member) else {
        return Ok(BTreeMap::new(alloc));
    };
    let Some(members) = into_members(value) else {
        return Err(Broken::Rule(bad));
    };
    moved_headers(alloc, members, bad)
}

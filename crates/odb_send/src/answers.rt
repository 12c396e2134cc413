//! What is recorded of the answers to requests.

ghost use Rattle.std.specs.Prelude.{◌≡◌, length, map, option_map, option_and_then, slice_get, IfOk, Some, if◌then◌else◌};
ghost use Rattle.odb_check.specs.Firsts.{list_below};
ghost use Rattle.odb_reply.specs.Fits.{places, statuses};
ghost use Rattle.odb_reply.specs.ResponseDocuments.{responses_in};
ghost use Rattle.serde_json.specs.View.{view, members_view};
ghost use Rattle.odb_check.specs.Plans.{plan_records};
ghost use Rattle.odb_doc.specs.Headers.{headers_in};
ghost use Rattle.odb_doc.specs.Statuses.{is_success as success};
ghost use Rattle.serde_json.specs.Data.{Data};
ghost use Rattle.odb_send.specs.Answers as answers;

use odb_check::Plan;
use odb_doc::array_at;
use odb_doc::status::is_success;
use odb_reply::Table;
use serde_json::{Map, Value};
use std::alloc::{AllocError, Global};
use std::collections::BTreeMap;

/// What is recorded of the answer to a request that has succeeded (OData JSON Format 4.01, sections 19.2 and 19.3).
#[derive(Clone, Copy, Debug)]
pub struct Recorded<'a> {
    /// The `Location`, if there is one.
    pub location: Option<&'a str>,
    /// The `ETag`, if there is one.
    pub etag: Option<&'a str>,
}

/// Returns whether a header is written with the name, in any case of its letters.
fn is_named(written: &str, name: &str) -> bool
    ensures { result ≡ answers.is_named name.now written.now }
{
    name.eq_ignore_ascii_case(written)
}

/// Returns the first value of a header with the name.
fn value_among<'a>(members: &'a Map<String, Value>, name: &str) -> Option<&'a Value>
    ensures { option_map (λ v. view v.now) result
        ≡ answers.value_among name.now (members_view members.now.entries) }
{
    for (written, value) in members.iter() {
        if is_named(written.as_str(), name) {
            return Some(value);
        }
    }
    None
}

/// Returns the value of the header among those of a response, if it is a string.
fn value_of<'a>(response: &'a Value, name: &str) -> Option<&'a str>
    ensures { option_map (λ text. text.now) result ≡ answers.value_of name.now (view response.now) }
{
    let headers = response.get("headers")?.as_object()?;
    value_among(headers, name)?.as_str()
}

/// Returns the value of the header with the name among the headers of an outcome, if there is one.
fn value_in<'a>(headers: &'a BTreeMap<String, String>, name: &str) -> Option<&'a str>
    ensures { option_map (λ text. text.now) result ≡ answers.value_in name.now (headers_in headers.now) }
{
    for (written, value) in headers.iter() {
        if is_named(written.as_str(), name) {
            return Some(value.as_str());
        }
    }
    None
}

impl<'a> Recorded<'a> {
    /// What is recorded of a request that has not succeeded.
    pub const NOTHING: Recorded<'static> = Recorded {
        location: None,
        etag: None,
    };

    /// Returns what the headers of an outcome record.
    pub fn of(headers: &'a BTreeMap<String, String>) -> Recorded<'a>
        ensures { answers.answer_of result ≡ answers.headers_answer (headers_in headers.now) }
    {
        Recorded {
            location: value_in(headers, "location"),
            etag: value_in(headers, "etag"),
        }
    }
}

/// Returns the elements of `responses`, none if there is no such array.
fn elements_of(responses: &Value) -> &[Value]
    ensures { map view result.now ≡ responses_in (view responses.now) }
{
    match array_at(responses, "responses") {
        Some(elements) => elements,
        None => &[],
    }
}

/// Returns the value of the header in the response at a place, if there is one.
fn value_at<'a>(elements: &'a [Value], place: usize, name: &str) -> Option<&'a str>
    ensures { option_map (λ text. text.now) result
        ≡ option_and_then (answers.value_of name.now) (slice_get (map view elements.now) place) }
{
    value_of(elements.get(place)?, name)
}

/// Returns what the response at a place records, if its status is that of a success.
fn answer_at(elements: &[Value], place: usize, status: u16) -> Recorded<'_>
    ensures { (d : Data) → map view elements.now ≡ responses_in d → answers.answer_of result
        ≡ (if success status then answers.response_answer d (Some place) else answers.nothing) }
{
    if !is_success(status) {
        return Recorded::NOTHING;
    }
    Recorded {
        location: value_at(elements, place, "location"),
        etag: value_at(elements, place, "etag"),
    }
}

/// Returns what the response to each request records. `responses` is the value of the response document.
pub(crate) fn answers_of<'a>(
    alloc: Global,
    plan: &Plan<'_>,
    table: &Table,
    responses: &'a Value,
) -> Result<Vec<Recorded<'a>>, AllocError>
    requires places { length (places table.now) ≡ length (plan_records plan.now) }
    requires statuses { length (statuses table.now) ≡ length (plan_records plan.now) }
    ensures { IfOk result (λ found. map answers.answer_of found.items
        ≡ list_below (length (plan_records plan.now))
        (answers.recorded (view responses.now) (places table.now) (statuses table.now))) }
{
    let elements = elements_of(responses);
    let mut found = Vec::with_capacity(alloc, plan.len() as usize)?;
    for i in 0..plan.len() {
        found.push(answer_at(elements, table.place(i), table.status(i)))?;
    }
    Ok(found)
}

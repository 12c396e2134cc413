//! A response document of a service.

ghost use Rattle.std.specs.Prelude.{◌==◌, ◌≡◌, ◌<◌, length, map, slice_get, Some, IsSomeAnd, MatchOption, IfOk, IfErr, OnOk, OnErr, IfSome, IsSome, option_map, All};
ghost use Rattle.std.specs.List.{AllZip};
ghost use Rattle.serde_json.specs.Data.{Data, string, unsigned};
ghost use Rattle.serde_json.specs.Find.{as_str};
ghost use Rattle.serde_json.specs.View.{view};
ghost use Rattle.odb_doc.specs.recorded.Outcomes as outcomes;
ghost use Rattle.odb_reply.specs.declared.response_fault.ResponseFault.TheVariants as faults;
ghost use Rattle.odb_reply.specs.ResponseDocuments as response_documents;

use crate::response_fault::ResponseFault;
use odb_doc::{array_at, text_at};
use serde_json::Value;
use std::alloc::Global;

/// A response that a service gave to one request of a batch (OData JSON Format 4.01, section 19.5).
///
/// Its texts are borrowed from the value of the document. Headers and body are not read.
#[derive(Clone, Copy, Debug, PartialEq, Eq)]
pub struct Response<'a> {
    /// The identifier of the request. It may be any string.
    pub id: &'a str,
    /// The atomicity group, if any; `null` is treated as none, the empty string is not.
    pub group: Option<&'a str>,
    /// The status, from 100 to 599.
    pub status: u16,
}

/// The responses of a service's response document, in the order of the document.
#[derive(Debug, Drop)]
pub struct Responses<'a> {
    pub(crate) list: Vec<Response<'a>>,
}

/// The rule that each element is a response, which is F70.
#[derive(Clone, Copy, Debug, PartialEq, Eq)]
struct NotResponse;

/// Returns the status of a response, or `None` if it is not a whole number from 100 to 599.
fn status_of(element: &Value) -> Option<u16>
    ensures { MatchOption result
        (¬ IsSomeAnd (outcomes.status_of (view element.now)) response_documents.IsStatus)
        (λ status. response_documents.IsStatus (unsigned status)
        × (outcomes.status_of (view element.now) ≡ Some (unsigned status))) }
{
    let status = u16::try_from(element.get("status")?.as_u64()?).ok()?;
    (100..=599).contains(&status).then_some(status)
}

/// Returns the group of a response, if any, or F70 if it is neither absent, null nor a string.
fn group_of(element: &Value) -> Result<Option<&str>, NotResponse>
    ensures group { IfOk result (λ group. response_documents.group_in (view element.now)
        ≡ option_map string (option_map (λ text. text.now) group)) }
    ensures rule { OnErr result
        (¬ IfSome (response_documents.group_in (view element.now)) (λ group. IsSome (as_str group))) }
{
    match element.get("atomicityGroup") {
        Some(value) if !value.is_null() => match value.as_str() {
            Some(group) => Ok(Some(group)),
            None => Err(NotResponse),
        },
        _ => Ok(None),
    }
}

/// Reads one element, or returns the rule that it breaks.
fn read_response(element: &Value) -> Result<Response<'_>, NotResponse>
    ensures rule { OnErr result (¬ response_documents.IsResponse (view element.now)) }
    ensures good { OnOk result (response_documents.IsResponse (view element.now)) }
    ensures says { IfOk result (λ response. response_documents.ReadsAs (view element.now)
        (response_documents.entry_of response)) }
{
    Ok(Response {
        id: text_at(element, "id").ok_or(NotResponse)?,
        status: status_of(element).ok_or(NotResponse)?,
        group: group_of(element)?,
    })
}

/// Reads all elements, or returns the first fault among them.
fn responses_from<'a>(
    alloc: Global,
    elements: &'a [Value],
) -> Result<Vec<Response<'a>>, ResponseFault>
    ensures good { OnOk result (All response_documents.IsResponse (map view elements.now)) }
    ensures says { IfOk result (λ found. AllZip response_documents.ReadsAs (map view elements.now)
        (map response_documents.entry_of found.items)) }
    ensures first { IfErr result (λ fault. (d : Data) → IsSome (response_documents.array_in d)
        → response_documents.responses_in d ≡ map view elements.now → response_documents.RefusesResponses fault d) }
    ensures some { OnErr result (0 < length elements.now) }
{
    let mut list = Vec::with_capacity(alloc, elements.len())?;
    for (at, element) in elements.iter().enumerate() {
        match read_response(element) {
            Ok(response) => list.push(response)?,
            Err(NotResponse) => return Err(ResponseFault::Response { at }),
        }
    }
    Ok(list)
}

impl<'a> Responses<'a> {
    ghost use Rattle.odb_reply.specs.ResponseDocuments.{array_in, entries, entry_of, IsResponseDocument, RefusesResponses, ReadsAs, responses_in};

    /// Reads the responses of a document: an object with `responses`, an array of objects with an
    /// `id`, a `status` and maybe an `atomicityGroup` (OData JSON Format 4.01, section 19.5).
    ///
    /// `document` is the value that [`odb_doc::parse`] made; texts are borrowed from it. Other
    /// members, of the document and of its elements, are ignored. Allocates the list of responses.
    /// Takes O(n) for a document of n bytes.
    ///
    /// Example: `accept` in crates/odb_tests_text/src/examples.rt.
    ///
    /// # Errors
    ///
    /// `Document` if the document is not such an object, else `Response` at the first element that
    /// is not a response: both are F70. `OutOfMemory` if an allocation fails, in place of the fault of
    /// an element or of responses.
    pub fn read(alloc: Global, document: &'a Value) -> Result<Responses<'a>, ResponseFault>
        ensures good { OnOk result (IsResponseDocument (view document.now)) }
        ensures responses { IfOk result (λ responses. AllZip ReadsAs
            (responses_in (view document.now)) (entries responses)) }
        ensures least { IfErr result (λ fault. RefusesResponses fault (view document.now)) }
        ensures memory { IfErr result (λ fault. fault ≡ faults.OutOfMemory
            → IsSome (array_in (view document.now)) × (0 < length (responses_in (view document.now)))) }
    {
        let Some(elements) = array_at(document, "responses") else {
            return Err(ResponseFault::Document);
        };
        let list = responses_from(alloc, elements)?;
        Ok(Responses { list })
    }

    /// Returns the number of responses.
    pub fn len(&self) -> usize
        ensures { result ≡ length (entries self.now) }
    {
        self.list.len()
    }

    /// Returns whether there are no responses.
    pub fn is_empty(&self) -> bool
        ensures { result ≡ (length (entries self.now) == 0) }
    {
        self.list.is_empty()
    }

    /// Returns the response at a position, counted from 0.
    pub fn entry(&self, k: usize) -> &Response<'a>
        requires { k < length (entries self.now) }
        ensures { slice_get (entries self.now) k ≡ Some (entry_of result.now) }
    {
        &self.list[k]
    }
}

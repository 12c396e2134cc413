//! A batch as it was read: its requests, in the order of the document.

ghost use Rattle.std.specs.Prelude.{◌==◌, ◌≡◌, ◌≢◌, ◌≤◌, ◌<◌, length, map, vec_len, slice_get, Some, IfOk, IfErr, OnOk, OnErr};
ghost use Rattle.std.specs.List.{AllZip};
ghost use Rattle.serde_json.specs.View.{view};
ghost use Rattle.odb_doc.specs.declared.fault.DocFault.TheVariants as faults;
ghost use Rattle.odb_doc.specs.batch.LeastFault.{IsWellShaped, IsLeastFault, IsBatchObject, IsFirstBroken, BreaksRequestAt};
ghost use Rattle.odb_doc.specs.BrokenRules.{OnRequest, IsRequestObject, IsLeastRequestRule};
ghost use Rattle.odb_doc.specs.LeastRules.{NoneBroken};
ghost use Rattle.odb_doc.specs.batch.Shapes.{elements};
ghost use Rattle.odb_doc.specs.batch.Records.{ReadsAs, IsWellFormedRecord, IsBatchOf, record_of};

pub(crate) mod all_faults;
mod asked;
mod body;
mod depends_on;
pub mod folded;
mod headers;
mod line;
pub(crate) mod media_type;
mod members;
mod object;
mod reference;
pub mod request;
mod url_rest;

use crate::batch::asked::Asked;
use crate::batch::object::{broken_rule, elements_of};
use crate::batch::request::Request;
use crate::fault::DocFault;
use serde_json::Value;
use std::alloc::Global;

/// The requests of a batch document without a fault of shape, in the order of the document.
#[derive(Debug, Drop)]
pub struct Batch<'a> {
    requests: Vec<Request<'a>>,
    ghost small: { vec_len requests ≤ 10000 },
}

/// Returns the first rule that the document as a whole breaks, as its fault.
fn whole_fault_of(document: &Value) -> DocFault
    requires { ¬ IsBatchObject (view document.now) }
    ensures least { IsLeastFault result (view document.now) }
    ensures rule { result ≢ faults.OutOfMemory }
{
    match broken_rule(document) {
        Some(rule) => DocFault::Document(rule),
        None => unreachable!(),
    }
}

/// Returns the first rule that the element at a position breaks, as the fault of its document.
fn fault_of(alloc: Global, element: &Value, at: usize) -> DocFault
    requires { ¬ IsRequestObject (view element.now) }
    ensures { OnRequest (λ place rule. (place ≡ at) × IsLeastRequestRule (view element.now) rule) result }
{
    match Asked::of(element).broken_rule(alloc) {
        Ok(Some(rule)) => DocFault::Request { at, rule },
        Ok(None) => unreachable!(),
        Err(_) => DocFault::OutOfMemory,
    }
}

/// Returns the requests of the elements, or the first fault of one of them.
fn requests_from<'a>(alloc: Global, elements: &'a [Value]) -> Result<Vec<Request<'a>>, DocFault>
    ensures unbroken { OnOk result (NoneBroken (BreaksRequestAt (map view elements.now))) }
    ensures says { IfOk result (λ found. AllZip ReadsAs (map view elements.now)
        (map record_of found.items)) }
    ensures len { IfOk result (λ found. length found.items ≡ length elements.now) }
    ensures first { IfErr result (OnRequest (IsFirstBroken (map view elements.now))) }
    ensures some { OnErr result (0 < length elements.now) }
{
    let mut requests = Vec::with_capacity(alloc, elements.len())?;
    for (at, element) in elements.iter().enumerate() {
        match Request::read(alloc, element)? {
            Some(request) => requests.push(request)?,
            None => return Err(fault_of(alloc, element, at)),
        }
    }
    Ok(requests)
}

impl<'a> Batch<'a> {
    ghost use Rattle.odb_doc.specs.batch.Batches.{records};

    /// Reads a batch from its document (OData JSON Format 4.01, section 19.1).
    ///
    /// `document` is the value that [`crate::parse`] made. Texts and bodies are borrowed from it.
    /// Allocates the list of requests and, for each, its names if there are several, the list of its
    /// headers and the identifier in its URL.
    ///
    /// It takes O(n log n) for a document of n bytes, whatever its names are: repeats are found by
    /// order and not by hash, so no choice of names makes it slow.
    ///
    /// Example: `respond` in crates/odb_tests_engine/src/examples.rt.
    ///
    /// # Errors
    ///
    /// The first fault of the document as a whole, F03 to F06, if there is one; else, at the
    /// first request that has a fault, the least of F10 to F23 by number. `OutOfMemory` if an
    /// allocation fails, in place of F10 to F23 or of a batch that has a request.
    pub fn read(alloc: Global, document: &'a Value) -> Result<Batch<'a>, DocFault>
        ensures good { OnOk result (IsWellShaped (view document.now)) }
        ensures records { IfOk result (λ batch. IsBatchOf (view document.now) (records batch)) }
        ensures least { IfErr result (λ fault. IsLeastFault fault (view document.now)) }
        ensures memory { IfErr result (λ fault. fault ≡ faults.OutOfMemory
            → IsBatchObject (view document.now) × (0 < length (elements (view document.now)))) }
    {
        let Some(elements) = elements_of(document) else {
            return Err(whole_fault_of(document));
        };
        let requests = requests_from(alloc, elements)?;
        Ok(Batch { requests })
    }

    /// Returns how many requests there are: 10,000 at most.
    pub fn len(&self) -> u32
        ensures count { result ≡ length (records self.now) }
        ensures small { result ≤ 10000 }
    {
        self.requests.len() as u32
    }

    /// Returns whether there are no requests.
    pub fn is_empty(&self) -> bool
        ensures { result ≡ (length (records self.now) == 0) }
    {
        self.requests.is_empty()
    }

    /// Returns the request at a position, counted from 0.
    pub fn request(&self, i: u32) -> &Request<'a>
        requires { i < length (records self.now) }
        ensures value { slice_get (records self.now) i ≡ Some (record_of result.now) }
        ensures well_formed { IsWellFormedRecord (record_of result.now) }
    {
        &self.requests[i as usize]
    }
}

//! The canonical text of a batch: one text for all documents of the same batch.

ghost use Rattle.std.specs.Prelude.{◌≡◌, ◌≤◌, ◌↔◌, ℕ, length, None, string_bytes, IfOk, IfSome, OnOk};
ghost use Rattle.odb_doc.specs.declared.fault.TextFault.TheVariants as faults;
ghost use Rattle.odb_doc.specs.batch.Batches.{records};
ghost use Rattle.odb_doc.specs.canonical.Canonical.{HasHeldBodies, HasWholeBodies, IsFirstNotWhole, canonical_text, canonical_value};
ghost use Rattle.odb_doc.specs.canonical.CanonicalLaws.{HasCanonicalText};
ghost use Rattle.odb_doc.specs.Documents.{IsDocument, most_bytes};

mod parts;

use crate::batch::Batch;
use crate::canonical::parts::push_request;
use crate::fault::TextFault;
use crate::whole::has_whole_body;
use std::alloc::{AllocError, Global};

/// The capacity for each request: enough for a short one.
const REQUEST_BYTES: usize = 128;

/// Returns the first request whose body holds a number that is not whole.
fn first_not_whole(batch: &Batch<'_>) -> Option<u32>
    ensures first { IfSome result (IsFirstNotWhole (records batch.now)) }
    ensures none { result ≡ None → HasWholeBodies (records batch.now) }
    ensures held { result ≡ None → HasHeldBodies (records batch.now) }
{
    for i in 0..batch.len() {
        if !has_whole_body(batch.request(i).body) {
            return Some(i);
        }
    }
    None
}

/// Returns the canonical text of a batch whose bodies hold whole numbers alone.
fn whole_text(alloc: Global, batch: &Batch<'_>) -> Result<String, AllocError>
    requires { HasWholeBodies (records batch.now) }
    ensures { IfOk result (λ text. string_bytes text ≡ canonical_text (records batch.now)) }
{
    let count = batch.len();
    let mut text = String::with_capacity(alloc, REQUEST_BYTES * (count as usize))?;
    text.push_str("{\"requests\":[")?;
    for i in 0..count {
        push_request(alloc, &mut text, batch, i)?;
    }
    text.push_str("]}")?;
    Ok(text)
}

impl Batch<'_> {
    /// Returns the canonical text of the batch: compact JSON, in which each request has its members
    /// in byte order (OData JSON Format 4.01, section 19.1).
    ///
    /// Batches with the same requests have the same text, whatever their documents look like: what
    /// is treated as absent is left out, methods and the names of headers are in lower case, and each
    /// name of `dependsOn` appears once. No newline ends it. [`crate::parse`] takes it for a document of
    /// the same batch, unless it is too long.
    ///
    /// Allocates the text, and the text of one body, or of one string with escapes, at a time. It takes
    /// O(n) for a text of n bytes.
    ///
    /// Example: `cache_key` in crates/odb_tests_text/src/examples.rt.
    ///
    /// # Errors
    ///
    /// `NotWhole` if and only if a body holds a number that is not whole, with the first such
    /// request; else `OutOfMemory` if an allocation fails.
    pub fn canonical(&self, alloc: Global) -> Result<String, TextFault>
        ensures text { IfOk result (λ text. string_bytes text ≡ canonical_text (records self.now)) }
        ensures whole { OnOk result (HasWholeBodies (records self.now)) }
        ensures held { OnOk result (HasHeldBodies (records self.now)) }
        ensures document { IfOk result (λ text. HasCanonicalText (records self.now)
            → length (string_bytes text) ≤ most_bytes
            → IsDocument (string_bytes text) (canonical_value (records self.now))) }
        ensures not_whole { (at : ℕ) → (result ≡ Err (faults.NotWhole at))
            ↔ IsFirstNotWhole (records self.now) at }
    {
        if let Some(at) = first_not_whole(self) {
            return Err(TextFault::NotWhole { at: at as usize });
        }
        Ok(whole_text(alloc, self)?)
    }
}

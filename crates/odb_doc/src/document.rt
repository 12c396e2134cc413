//! From bytes to a JSON value: the limit on bytes, and `serde_json`.

ghost use Rattle.std.specs.Prelude.{◌≡◌, ◌≤◌, ◌<◌, length, IfOk, IfErr};
ghost use Rattle.serde_json.specs.Data.{depth};
ghost use Rattle.serde_json.specs.View.{view};
ghost use Rattle.odb_doc.specs.declared.fault.DocFault.TheVariants as faults;
ghost use Rattle.odb_doc.specs.Documents.{IsDocument, RefusesDocument, most_bytes};

use crate::fault::{DocFault, DocumentRule};
use serde_json::Value;
use std::alloc::Global;

/// The limit of F01, in bytes.
pub const MAX_DOCUMENT_BYTES: usize = 16_777_216;

/// Returns the JSON value of a document. It nests at most 127 deep.
///
/// Example: `respond` in crates/odb_tests_engine/src/examples.rt.
///
/// # Errors
///
/// F01 if and only if the document is larger than 16,777,216 bytes; else F02 if it is not JSON.
/// `OutOfMemory` if an allocation fails: not for F01, and not for an empty document.
pub fn parse(alloc: Global, bytes: &[u8]) -> Result<Value, DocFault>
    ensures ok { IfOk result (λ value. IsDocument bytes.now (view value)) }
    ensures nests { IfOk result (λ value. depth (view value) ≤ 127) }
    ensures err { IfErr result (λ fault. RefusesDocument fault bytes.now) }
    ensures memory { IfErr result (λ fault. fault ≡ faults.OutOfMemory
        → (0 < length bytes.now) × (length bytes.now ≤ most_bytes)) }
{
    if bytes.len() > MAX_DOCUMENT_BYTES {
        return Err(DocFault::Document(DocumentRule::TooLong));
    }
    match Value::from_slice(alloc, bytes) {
        Ok(value) => Ok(value),
        Err(error) if error.is_memory() => Err(DocFault::OutOfMemory),
        Err(_) => Err(DocFault::Document(DocumentRule::NotJson)),
    }
}

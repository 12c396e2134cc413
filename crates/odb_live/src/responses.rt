//! The responses in the document of a service.

ghost use Rattle.std.specs.Prelude.{◌≢◌, Err, IfOk, IfErr};
ghost use Rattle.odb_engine.specs.Halts.{Halted};
ghost use Rattle.odb_live.specs.ServiceResponses.{HasResponses, IsLeastOfResponses};
ghost use Rattle.odb_engine.specs.declared.halt.Halt.TheVariants as halts;

use odb_doc::Place;
use odb_engine::{Halt, value_in};
use odb_reply::Responses;
use odb_send::{ResponseList, responses_of};
use std::alloc::Global;

/// Returns the responses in the document of a service, in its order (OData JSON Format 4.01, section 19.5): of each its id,
/// group and status, and the bytes of its headers and its body in the document, which are not changed.
///
/// They need not fit any batch. Takes O(n log n) time and O(n) memory for a document of n bytes.
///
/// # Errors
///
/// `Refused` by the fault of the bytes, else F70; `OutOfMemory` if an allocation fails. Never `Read`.
pub fn responses_in(alloc: Global, document: &[u8]) -> Result<ResponseList, Halt>
    ensures responses { IfOk result (HasResponses document.now) }
    ensures least { IfErr result (Halted (IsLeastOfResponses document.now)) }
    ensures read { result ≢ Err halts.Read }
{
    let value = value_in(alloc, document, Place::Responses)?;
    let read = Responses::read(alloc, &value)?;
    let found = responses_of(alloc, document, &read)?;
    Ok(found)
}

//! Reads a document to its end, or one byte beyond the limit.

ghost use Rattle.std.specs.Prelude.{◌≡◌, ◌≢◌, ◌≤◌, ◌↔◌, false, option_map, IsTrue, IfOk, IfErr, IfSome, Err, None};
ghost use Rattle.serde_json.specs.Data.{Data};
ghost use Rattle.serde_json.specs.View.{view};
ghost use Rattle.odb_doc.specs.Documents.{IsDocument, IsJson};
ghost use Rattle.odb_doc.specs.Faults.{document_row};
ghost use Rattle.odb_engine.specs.Cascade.{RefusesBytes, at_place};
ghost use Rattle.odb_engine.specs.Halts.{Halted, HaltsBy};
ghost use Rattle.odb_engine.specs.Inputs.{GivesDocument, GivesFew, WasRead};
ghost use Rattle.odb_engine.specs.declared.halt.Halt.TheVariants as halts;

use crate::halt::Halt;
use odb_doc::{DocFault, Fault, MAX_DOCUMENT_BYTES, Place, Refusal};
use odb_io::Input;
use odb_spans::{ParseError, parse};
use serde_json::Value;
use std::alloc::Global;
use std::io::Read;

/// How many bytes are read of a document: one more than it may have, so that a document that is too
/// long is noticed.
pub const MAX_READ_BYTES: usize = MAX_DOCUMENT_BYTES + 1;

const _: () = prove!(MAX_READ_BYTES == 16_777_217);

const CHUNK_BYTES: usize = 8192;

const _: () = prove!(CHUNK_BYTES == 8192);

/// The capacity for a document at first. The system provides memory of this size page by page as it
/// is written, and grows it without a copy.
const ROOM_BYTES: usize = 262_144;

/// Reads a document: what the input gives until a read gives nothing, but 16,777,217 bytes at most.
pub fn read_document<R: Read>(alloc: Global, input: &mut Input<R>) -> Result<Vec<u8>, Halt>
    requires works { input.old.failed ≡ false }
    requires fresh { input.old.reads ≡ 0 }
    ensures document { IfOk result (λ bytes. GivesDocument (R.remaining input.old.reader)
        bytes.items) }
    ensures whole { IfOk result (λ bytes. WasRead R.remaining input.old input.new bytes.items) }
    ensures fault { (result ≡ Err halts.Read) ↔ IsTrue input.new.failed }
    ensures unrefused { IfErr result (Halted (λ _. ⊥)) }
    ensures reads { input.new.reads ≤ 16777217 }
    ensures given { GivesFew (R.remaining input.old.reader) (R.remaining input.new.reader)
        input.new.reads }
{
    let mut bytes = Vec::with_capacity(alloc, ROOM_BYTES)?;
    let mut chunk = [0u8; CHUNK_BYTES];
    while bytes.len() < MAX_READ_BYTES {
        let room = CHUNK_BYTES.min(MAX_READ_BYTES - bytes.len());
        let Ok(count) = input.take(&mut chunk[..room]) else {
            return Err(Halt::Read);
        };
        if count == 0 {
            return Ok(bytes);
        }
        bytes.extend_from_slice(&chunk[..count])?;
    }
    Ok(bytes)
}

/// Returns the halt by a fault of a document; `place` is the place of the document.
pub fn halt_at(fault: DocFault, place: Place) -> Halt
    ensures { HaltsBy (option_map (at_place place) (document_row fault)) result }
{
    match fault.refusal() {
        Some(refusal) => Halt::Refused(Refusal::new((refusal.code, refusal.name), place)),
        None => Halt::OutOfMemory,
    }
}

/// Returns the value of the document in these bytes; `place` is the place of its fault. If it is not JSON, `error` gets
/// where the parser stopped.
///
/// # Errors
///
/// `Refused` if they are too long or not JSON; `OutOfMemory` if an allocation fails. Never `Read`.
pub(crate) fn value_or_error(
    alloc: Global,
    bytes: &[u8],
    place: Place,
    error: &mut Option<ParseError>,
) -> Result<Value, Halt>
    requires { error.old ≡ None }
    ensures value { IfOk result (λ value. IsDocument bytes.now (view value)) }
    ensures fault { IfErr result (Halted (RefusesBytes place bytes.now)) }
    ensures error { IfSome error.new (λ _. (d : Data) → ¬ IsJson bytes.now d) }
    ensures read { result ≢ Err halts.Read }
{
    match parse(alloc, bytes, error) {
        Ok(value) => Ok(value),
        Err(fault) => Err(halt_at(fault, place)),
    }
}

/// Returns the value of the document in these bytes; `place` is the place of its fault.
///
/// Takes O(n) time and memory for n bytes.
///
/// # Errors
///
/// `Refused` if they are more than 16,777,216 or not JSON; `OutOfMemory` if an allocation fails. Never `Read`.
pub fn value_in(alloc: Global, bytes: &[u8], place: Place) -> Result<Value, Halt>
    ensures value { IfOk result (λ value. IsDocument bytes.now (view value)) }
    ensures fault { IfErr result (Halted (RefusesBytes place bytes.now)) }
    ensures read { result ≢ Err halts.Read }
{
    value_or_error(alloc, bytes, place, &mut None)
}

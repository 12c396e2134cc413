//! An outcome of headers as JSON, and its body as JSON text.

ghost use Rattle.std.specs.Prelude.{◌≡◌, ◌≢◌, [], None, Some, Err, min, IfOk, IfErr};
ghost use Rattle.serde_json.specs.View.{view};
ghost use Rattle.odb_doc.specs.Headers.{IsHeaders};
ghost use Rattle.odb_doc.specs.recorded.Parts.{HasParts};
ghost use Rattle.odb_reply.specs.BodyTexts.{IsNoBody};
ghost use Rattle.odb_engine.specs.Halts.{Halted};
ghost use Rattle.odb_engine.specs.declared.halt.Halt.TheVariants as halts;
ghost use Rattle.odb_calls.specs.Live.{IsReported, IsReportedBody};
ghost use Rattle.odb_calls.specs.Refused as refused;

use odb_doc::{
    DocFault, DocumentRule, EventFault, EventRule, MAX_DOCUMENT_BYTES, Outcome, Place, parse,
};
use odb_engine::{Halt, halt_at};
use odb_reply::{BodyFault, JsonText};
use serde_json::Value;
use std::alloc::Global;

/// Returns the status as a number of 16 bits.
fn status_of(status: u32) -> u16
    ensures { result ≡ min status 65535 }
{
    if status > 65_535 {
        65_535
    } else {
        status as u16
    }
}

/// Returns the halt by headers that are no object of strings: F64 of a document that has their report alone.
fn bad_headers() -> Halt
    ensures refused { Halted refused.IsBadEvent result }
    ensures memory { result ≢ halts.OutOfMemory }
    ensures read { result ≢ halts.Read }
{
    Halt::from(EventFault::Event {
        at: 0,
        rule: EventRule::BadEvents,
    })
}

/// Returns the halt by a body that is refused: F01 if it is too long, else F02.
fn bad_body(bytes: &[u8]) -> Halt
    requires { IsNoBody bytes.now }
    ensures refused { Halted (refused.RefusesBody bytes.now) result }
    ensures read { result ≢ halts.Read }
{
    let rule = if bytes.len() > MAX_DOCUMENT_BYTES {
        DocumentRule::TooLong
    } else {
        DocumentRule::NotJson
    };
    halt_at(DocFault::Document(rule), Place::Events)
}

/// Returns the outcome with this status alone.
fn bare(status: u16) -> Outcome
    ensures { HasParts status None None result }
{
    Outcome::bare(status)
}

/// Returns the outcome of a success without headers or body. It allocates nothing.
pub fn no_content() -> Outcome
    ensures { IsReported 204 [] result }
{
    bare(204)
}

/// Returns the outcome with this status, these headers and no body.
fn outcome_with(alloc: Global, status: u16, headers: Value) -> Result<Outcome, Halt>
    ensures some { IfOk result (HasParts status (Some (view headers)) None) }
    ensures refused { IfErr result (Halted (λ refusal. (¬ IsHeaders (Some (view headers)))
        × refused.IsBadEvent refusal)) }
    ensures read { result ≢ Err halts.Read }
{
    match Outcome::of_parts(alloc, status, Some(headers), None)? {
        Some(outcome) => Ok(outcome),
        None => Err(bad_headers()),
    }
}

/// Returns the outcome with this status, with the headers in these bytes, which may be none, and with no
/// body. A status above 65,535 is as 65,535.
///
/// # Errors
///
/// `Refused` by the fault that a document of events has of the headers, if it has this report alone; `OutOfMemory` if an
/// allocation fails. Never `Read`.
pub fn outcome_of(alloc: Global, status: u32, headers: &[u8]) -> Result<Outcome, Halt>
    ensures some { IfOk result (IsReported status headers.now) }
    ensures refused { IfErr result (Halted (refused.RefusesHeaders headers.now)) }
    ensures memory { result ≡ Err halts.OutOfMemory → headers.now ≢ [] }
    ensures read { result ≢ Err halts.Read }
{
    if headers.is_empty() {
        return Ok(bare(status_of(status)));
    }
    match parse(alloc, headers) {
        Ok(value) => outcome_with(alloc, status_of(status), value),
        Err(fault) => Err(halt_at(fault, Place::Events)),
    }
}

/// Returns the text of the body in these bytes: `None` if there are none, or if they are the JSON null.
///
/// # Errors
///
/// `Refused` by the fault that a document of events has of the body, if it has this report alone; `OutOfMemory` if an
/// allocation fails. Never `Read`.
pub fn body_of(alloc: Global, bytes: &[u8]) -> Result<Option<JsonText>, Halt>
    ensures some { IfOk result (IsReportedBody bytes.now) }
    ensures refused { IfErr result (Halted (refused.RefusesBody bytes.now)) }
    ensures memory { result ≡ Err halts.OutOfMemory → bytes.now ≢ [] }
    ensures read { result ≢ Err halts.Read }
{
    if bytes.is_empty() {
        return Ok(None);
    }
    match JsonText::read(alloc, bytes) {
        Ok(text) => Ok(text),
        Err(BodyFault::Refused) => Err(bad_body(bytes)),
        Err(BodyFault::OutOfMemory) => Err(Halt::OutOfMemory),
    }
}

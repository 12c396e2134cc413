//! Readings of documents: two readings of one value, or of the same bytes, are one; and what is
//! written is read back.

ghost use Rattle.std.specs.Prelude.{◌≡◌, ◌↔◌, List, Some, IfSome, IsTrue, string_bytes, IsSome};
ghost use Rattle.serde_json.specs.Data.{Data};
ghost use Rattle.serde_json.specs.Read.{read};
ghost use Rattle.serde_json.specs.View.{view};
ghost use Rattle.odb_names.specs.Fronts.{HasFront, form};
ghost use Rattle.odb_names.specs.Methods.{Names};
ghost use Rattle.odb_names.specs.Runs.{SplitsRun};
ghost use Rattle.odb_doc.specs.batch.Records.{Record, IsBatchOf};
ghost use Rattle.odb_doc.specs.batch.Batches.{records};
ghost use Rattle.odb_doc.specs.canonical.Canonical.{canonical_text};
ghost use Rattle.odb_doc.specs.canonical.CanonicalLaws.{HasCanonicalText, IsDocumentOf};
ghost use Rattle.odb_doc.specs.Documents.{IsDocument};
ghost use Rattle.odb_doc.specs.Faults as faults;
ghost use Rattle.odb_doc.specs.recorded.EventFaults as event_faults;
ghost use Rattle.odb_doc.specs.recorded.Events.{AreEventsOf};
ghost use Rattle.odb_doc.specs.recorded.EventLists as event_lists;
ghost use Rattle.odb_doc.specs.recorded.LeastEventFault.{IsEventsDocument, RefusesEvents};
ghost use Rattle.odb_doc.specs.batch.LeastFault.{IsLeastFault, IsWellShaped};
ghost use Rattle.odb_doc.specs.recorded.LeastOutcomeFault.{IsOutcomesDocument, RefusesOutcomes};
ghost use Rattle.odb_doc.specs.recorded.OutcomeFaults as outcome_faults;
ghost use Rattle.odb_doc.specs.recorded.OutcomeLists as outcome_lists;
ghost use Rattle.odb_doc.specs.batch.MediaTypes.{is_in_type};
ghost use Rattle.odb_doc.specs.recorded.Outcomes.{AreOutcomesOf};
ghost use Rattle.odb_tests_check.specs.Documents.{HasValue};
ghost use Rattle.odb_testing.specs.Readings.{IsReading, IsSame};

use odb_doc::laws::{
    every_value, one_batch, one_fault, one_history, one_record, one_text, some_batch,
};
use odb_doc::{
    Batch, DocFault, EventFault, Events, OutcomeFault, Outcomes, is_whole, parse, shape_faults,
};
use odb_names::laws::one_reading;
use odb_names::{Front, Method, front};
use odb_testing::Two;
use serde_json::Value;
use std::alloc::Global;

/// Returns the method that a text names.
fn method_of(text: &str) -> Option<Method>
    ensures { IfSome result (Names text.now) }
{
    Method::read(text)
}

/// Returns what two readings of a text find: they name one method.
fn method_twice(text: &str) -> Two<Method>
    ensures { IfSome result.0 (λ one. IfSome result.1 (λ other. one ≡ other)) }
{
    one_reading();
    (method_of(text), method_of(text))
}

/// Returns the front of a URL, unless memory runs out.
fn front_of(alloc: Global, url: &str) -> Option<Front>
    ensures { IfSome result (λ found. HasFront url.now (form found)) }
{
    match front(alloc, url) {
        Ok(found) => Some(found),
        Err(_) => None,
    }
}

/// Returns what two readings of a URL find: it has one front.
fn front_twice(alloc: Global, url: &str) -> Two<Front>
    ensures { IfSome result.0 (λ one. IfSome result.1 (λ other. form one ≡ form other)) }
{
    one_reading();
    (front_of(alloc, url), front_of(alloc, url))
}

/// Splits a value before its first `;`, with which the parameters of a media type begin.
fn type_in(value: &[u8]) -> (&[u8], &[u8])
    ensures { SplitsRun is_in_type value.now result.0.now result.1.now }
{
    let end = value.iter().position(|byte| *byte == b';');
    value.split_at(end.unwrap_or(value.len()))
}

/// Splits a value twice: it is split in one way.
fn type_twice(value: &[u8]) -> ((&[u8], &[u8]), (&[u8], &[u8]))
    ensures { (result.0.0.now ≡ result.1.0.now) × (result.0.1.now ≡ result.1.1.now) }
{
    one_reading();
    (type_in(value), type_in(value))
}

/// Reads a batch, unless memory runs out.
fn batch_of<'a>(alloc: Global, value: &'a Value) -> Option<Result<Batch<'a>, DocFault>>
    ensures { IfSome result (IsReading
        (λ batch. IsWellShaped (view value.now) × IsBatchOf (view value.now) (records batch))
        (λ fault. IsSome (faults.document_row fault) × IsLeastFault fault (view value.now))) }
{
    match Batch::read(alloc, value) {
        Ok(batch) => Some(Ok(batch)),
        Err(DocFault::OutOfMemory) => None,
        Err(fault) => Some(Err(fault)),
    }
}

/// Reads a batch twice.
fn batch_twice<'a>(alloc: Global, value: &'a Value) -> Two<Result<Batch<'a>, DocFault>>
    ensures { IfSome result.0 (λ one. IfSome result.1 (IsSame records one)) }
{
    one_batch();
    one_fault();
    (batch_of(alloc, value), batch_of(alloc, value))
}

/// Returns whether a value has no fault of shape. If it has none, it is a batch.
fn is_batch(alloc: Global, value: &Value) -> bool
    ensures { IsTrue result → (requests : List Record) × IsBatchOf (view value.now) requests }
{
    some_batch();
    match shape_faults(alloc, value) {
        Ok(faults) => faults.is_empty(),
        Err(_) => false,
    }
}

/// Reads a document of outcomes, unless it is not JSON or memory runs out.
fn outcomes_of(alloc: Global, bytes: &[u8]) -> Option<Result<Outcomes, OutcomeFault>>
    ensures { IfSome result (λ read. HasValue bytes.now (λ value. IsReading
        (λ found. IsOutcomesDocument value × AreOutcomesOf value (outcome_lists.entries found))
        (λ fault. IsSome (outcome_faults.outcome_row fault) × RefusesOutcomes fault value) read)) }
{
    let Ok(value) = parse(alloc, bytes) else {
        return None;
    };
    match Outcomes::read(alloc, value) {
        Ok(outcomes) => Some(Ok(outcomes)),
        Err(OutcomeFault::OutOfMemory) => None,
        Err(fault) => Some(Err(fault)),
    }
}

/// Reads a document of outcomes twice.
fn outcomes_twice(alloc: Global, bytes: &[u8]) -> Two<Result<Outcomes, OutcomeFault>>
    ensures { IfSome result.0 (λ one. IfSome result.1 (IsSame outcome_lists.entries one)) }
{
    one_record();
    (outcomes_of(alloc, bytes), outcomes_of(alloc, bytes))
}

/// Reads a document of events, unless it is not JSON or memory runs out.
fn events_of(alloc: Global, bytes: &[u8]) -> Option<Result<Events, EventFault>>
    ensures { IfSome result (λ read. HasValue bytes.now (λ value. IsReading
        (λ found. IsEventsDocument value × AreEventsOf value (event_lists.entries found))
        (λ fault. IsSome (event_faults.event_row fault) × RefusesEvents fault value) read)) }
{
    let Ok(value) = parse(alloc, bytes) else {
        return None;
    };
    match Events::read(alloc, value) {
        Ok(events) => Some(Ok(events)),
        Err(EventFault::OutOfMemory) => None,
        Err(fault) => Some(Err(fault)),
    }
}

/// Reads a document of events twice.
fn events_twice(alloc: Global, bytes: &[u8]) -> Two<Result<Events, EventFault>>
    ensures { IfSome result.0 (λ one. IfSome result.1 (IsSame event_lists.entries one)) }
{
    one_history();
    (events_of(alloc, bytes), events_of(alloc, bytes))
}

/// Returns the text of a document whose numbers are whole: it is read as the same value.
fn written(alloc: Global, bytes: &[u8]) -> Option<String>
    ensures { IfSome result (λ text. HasValue bytes.now (λ value.
        read (string_bytes text) ≡ Some value)) }
{
    every_value();
    let Ok(value) = parse(alloc, bytes) else {
        return None;
    };
    if !is_whole(&value) {
        return None;
    }
    match value.to_string(alloc) {
        Ok(text) => Some(text),
        Err(_) => None,
    }
}

/// Returns the canonical text of the batch that a document is.
fn text_of(alloc: Global, bytes: &[u8]) -> Option<String>
    ensures { IfSome result (λ text. (batch : List Record) × IsDocumentOf bytes.now batch
        × HasCanonicalText batch × (string_bytes text ≡ canonical_text batch)) }
{
    one_text();
    let Ok(document) = parse(alloc, bytes) else {
        return None;
    };
    let Ok(batch) = Batch::read(alloc, &document) else {
        return None;
    };
    match batch.canonical(alloc) {
        Ok(text) => Some(text),
        Err(_) => None,
    }
}

/// Returns the canonical text of a document: both are documents of one batch.
fn canonical_of(alloc: Global, bytes: &[u8]) -> Option<String>
    ensures { IfSome result (λ text. (batch : List Record)
        × IsDocumentOf bytes.now batch × IsDocumentOf (string_bytes text) batch) }
{
    one_text();
    text_of(alloc, bytes)
}

/// Returns whether the bytes of two documents are one batch, by their canonical texts.
fn is_same(alloc: Global, bytes: &[u8], other_bytes: &[u8]) -> Option<bool>
    ensures { IfSome result (λ is_same. (batch other : List Record)
        × IsDocumentOf bytes.now batch × IsDocumentOf other_bytes.now other
        × (IsTrue is_same ↔ (batch ≡ other))) }
{
    one_text();
    let text = text_of(alloc, bytes)?;
    let other = text_of(alloc, other_bytes)?;
    Some(text == other)
}

/// A batch, and the same batch in other words.
const BATCH: &[u8] = br#"{"requests":[{"id":"a","method":"get","url":"$b"}]}"#;

const SAME: &[u8] = br#"{"requests":[{"url":"$b","method":"GET","id":"a"}]}"#;

/// Whether two readings of outcomes found the same, a value or a fault.
fn are_alike_outcomes(both: &Two<Result<Outcomes, OutcomeFault>>, is_good: bool) -> bool {
    match both {
        (Some(Ok(one)), Some(Ok(other))) => is_good && one.len() == other.len(),
        (Some(Err(one)), Some(Err(other))) => !is_good && one == other,
        _ => false,
    }
}

fn are_same_outcomes(alloc: Global, bytes: &[u8], is_good: bool) -> bool {
    are_alike_outcomes(&outcomes_twice(alloc, bytes), is_good)
}

/// Whether two readings of events found the same, a value or a fault.
fn are_alike_events(both: &Two<Result<Events, EventFault>>, is_good: bool) -> bool {
    match both {
        (Some(Ok(one)), Some(Ok(other))) => is_good && one.len() == other.len(),
        (Some(Err(one)), Some(Err(other))) => !is_good && one == other,
        _ => false,
    }
}

fn are_same_events(alloc: Global, bytes: &[u8], is_good: bool) -> bool {
    are_alike_events(&events_twice(alloc, bytes), is_good)
}

/// Whether two readings of a batch refuse it alike.
fn are_alike_refusals(both: &Two<Result<Batch<'_>, DocFault>>) -> bool {
    match both {
        (Some(Err(one)), Some(Err(other))) => one == other,
        _ => false,
    }
}

fn is_refused_alike(alloc: Global, bytes: &[u8]) -> bool {
    match parse(alloc, bytes) {
        Ok(value) => are_alike_refusals(&batch_twice(alloc, &value)),
        Err(_) => false,
    }
}

/// Whether two readings of a URL find that it is plain.
fn is_plain_twice(alloc: Global, url: &str) -> bool {
    matches!(
        front_twice(alloc, url),
        (Some(Front::Plain), Some(Front::Plain))
    )
}

/// Whether the value of a document is a batch.
fn is_batch_in(alloc: Global, bytes: &[u8]) -> bool {
    match parse(alloc, bytes) {
        Ok(value) => is_batch(alloc, &value),
        Err(_) => false,
    }
}

/// Whether a document is written so.
fn is_written(alloc: Global, bytes: &[u8], text: &str) -> bool {
    match written(alloc, bytes) {
        Some(found) => found.as_str() == text,
        None => false,
    }
}

/// Whether two readings of outcomes and of events find the same, a value or a fault.
fn are_same_records(alloc: Global) -> bool {
    are_same_outcomes(alloc, br#"{"outcomes":[{"id":"a","status":200}]}"#, true)
        && are_same_outcomes(alloc, b"{}", false)
        && are_same_events(alloc, br#"{"events":[{"start":"a"}]}"#, true)
        && are_same_events(alloc, b"{}", false)
}

/// Whether two readings of a text find the same.
fn are_same_texts(alloc: Global) -> bool {
    method_twice("gEt") == (Some(Method::Get), Some(Method::Get))
        && type_twice(b"a/b;c").1.1 == b";c".as_slice()
        && is_plain_twice(alloc, "a/b")
}

#[test]
fn two_readings_of_one_document_are_one(rt: HostRuntime) {
    let alloc = rt.alloc();
    assert!(rt; are_same_texts(alloc) && is_refused_alike(alloc, b"{}") && are_same_records(alloc));
}

/// Whether what is written of a value and of a batch is read back.
fn are_read_back(alloc: Global) -> bool {
    is_same(alloc, BATCH, SAME) == Some(true)
        && is_written(alloc, b"[1, 2]", "[1,2]")
        && canonical_of(alloc, BATCH).is_some()
}

#[test]
fn a_written_text_is_read_back(rt: HostRuntime) {
    assert!(rt; are_read_back(rt.alloc()));
}

#[test]
fn a_value_without_a_fault_of_shape_is_a_batch(rt: HostRuntime) {
    let alloc = rt.alloc();
    assert!(rt; is_batch_in(alloc, BATCH) && !is_batch_in(alloc, b"{}"));
}

//! What a value determines: its first fault, and the batch, the outcomes or the events that it is; and
//! what the canonical text of a batch determines.
//!
//! The laws are clauses of functions that change nothing. They speak of the words that the clauses of
//! [`crate::Batch::read`], [`crate::Outcomes::read`] and [`crate::Events::read`] use, for callers that
//! compare two readings of one value.

ghost use Rattle.std.specs.Prelude.{◌≡◌, ◌≤◌, ◌↔◌, ◌++◌, ℕ, List, [], Some, IsSome, All, codes, fold};
ghost use Rattle.serde_json.specs.Data.{Data, depth};
ghost use Rattle.serde_json.specs.Read.{read};
ghost use Rattle.serde_json.specs.Written.{compact_text};
ghost use Rattle.odb_doc.specs.declared.document.TheConstants.{MAX_DOCUMENT_BYTES};
ghost use Rattle.odb_doc.specs.declared.fault.DocFault.{DocFault};
ghost use Rattle.odb_doc.specs.declared.recorded.event_fault.EventFault.{EventFault};
ghost use Rattle.odb_doc.specs.declared.recorded.outcome_fault.OutcomeFault.{OutcomeFault};
ghost use Rattle.odb_doc.specs.canonical.Canonical.{HasWholeBodies, canonical_text, canonical_value};
ghost use Rattle.odb_doc.specs.canonical.CanonicalLaws.{HasCanonicalText, IsDocumentOf};
ghost use Rattle.odb_doc.specs.recorded.EventFaults as event_faults;
ghost use Rattle.odb_doc.specs.recorded.Events.{EventValue, AreEventsOf, IsRecordableEvent};
ghost use Rattle.odb_doc.specs.Faults.{document_row};
ghost use Rattle.odb_doc.specs.Headers.{IsInOrder};
ghost use Rattle.odb_doc.specs.canonical.HeldValues.{IsHeld};
ghost use Rattle.odb_doc.specs.recorded.LeastEventFault.{IsEventsDocument, RefusesEvents};
ghost use Rattle.odb_doc.specs.batch.LeastFault.{IsLeastFault, IsWellShaped};
ghost use Rattle.odb_doc.specs.recorded.LeastOutcomeFault.{IsOutcomesDocument, RefusesOutcomes};
ghost use Rattle.odb_doc.specs.Names.{distinct, with_name};
ghost use Rattle.odb_doc.specs.recorded.OutcomeFaults as outcome_faults;
ghost use Rattle.odb_doc.specs.recorded.OutcomeValues.{IsRecordable};
ghost use Rattle.odb_doc.specs.recorded.Outcomes.{Recorded, AreOutcomesOf};
ghost use Rattle.odb_doc.specs.batch.Records.{Record, IsBatchOf};
ghost use Rattle.odb_doc.specs.WholeNumbers.{IsWhole};

use crate::recorded::outcome::Outcome;

/// A value has one first fault of shape at most, and none if it is well shaped (OData JSON Format
/// 4.01, section 19.1).
pub fn one_fault()
    ensures one { (value : Data) (fault other : DocFault) → IsSome (document_row fault) → IsSome (document_row other)
        → IsLeastFault fault value → IsLeastFault other value → fault ≡ other }
    ensures none { (value : Data) (fault : DocFault) → IsSome (document_row fault)
        → IsLeastFault fault value → ¬ IsWellShaped value }
{}

/// The limit by which callers refuse documents is that of the definitions.
pub fn limits()
    ensures { MAX_DOCUMENT_BYTES ≡ 16777216 }
{}

/// Names that are appended one by one, each unless the list has it, are the names without repeats.
pub fn distinct_names()
    ensures { (names : List (List ℕ)) → fold with_name [] names ≡ distinct names }
{}

/// A value is one batch at most: each element determines all of its request, the reference and the
/// headers too (OData JSON Format 4.01, section 19.1).
pub fn one_batch()
    ensures { (value : Data) (batch other : List Record) → IsBatchOf value batch
        → IsBatchOf value other → batch ≡ other }
{
    odb_names::laws::one_reading();
}

/// A value without a fault of shape is a batch: its elements are requests (OData JSON Format 4.01, section
/// 19.1).
pub fn some_batch()
    ensures { (value : Data) → IsWellShaped value
        → (requests : List Record) × IsBatchOf value requests }
{
    odb_names::laws::one_reading();
}

/// A value has one first fault as a document of outcomes at most, and none if it is a good one; and it
/// is one list of outcomes at most: their ids, and their statuses, headers and bodies by value. Its
/// bodies nest at most 124 deep if it nests at most 127 deep, as [`every_value`] says of what is read.
pub fn one_record()
    ensures one { (value : Data) (fault other : OutcomeFault) → IsSome (outcome_faults.outcome_row fault)
        → IsSome (outcome_faults.outcome_row other) → RefusesOutcomes fault value
        → RefusesOutcomes other value → fault ≡ other }
    ensures none { (value : Data) (fault : OutcomeFault) → IsSome (outcome_faults.outcome_row fault)
        → RefusesOutcomes fault value → ¬ IsOutcomesDocument value }
    ensures outcomes { (value : Data) (entries others : List Recorded)
        → AreOutcomesOf value entries → AreOutcomesOf value others → entries ≡ others }
    ensures recordable { (value : Data) (entries : List Recorded) → IsHeld value
        → depth value ≤ 127 → AreOutcomesOf value entries
        → All (λ entry. IsRecordable entry.1) entries }
{}

/// A value has one first fault as a document of events at most, and none if it is a good one; and it
/// is one list of events at most, by their ids and outcomes. The bodies nest as in [`one_record`].
pub fn one_history()
    ensures one { (value : Data) (fault other : EventFault) → IsSome (event_faults.event_row fault)
        → IsSome (event_faults.event_row other) → RefusesEvents fault value
        → RefusesEvents other value → fault ≡ other }
    ensures none { (value : Data) (fault : EventFault) → IsSome (event_faults.event_row fault)
        → RefusesEvents fault value → ¬ IsEventsDocument value }
    ensures events { (value : Data) (events others : List EventValue)
        → AreEventsOf value events → AreEventsOf value others → events ≡ others }
    ensures recordable { (value : Data) (events : List EventValue) → IsHeld value
        → depth value ≤ 127 → AreEventsOf value events → All IsRecordableEvent events }
{}

/// The headers of every outcome are in byte order of their names, each name once (RFC 9110, section 5).
pub fn every_outcome(outcome: &Outcome)
    ensures { IsInOrder outcome.now.headers }
{
    if let Some(headers) = outcome.headers() {
        let _headers = headers.iter();
    }
}

/// What a text is read as, and that what is written for a value is read back as that value.
///
/// What `serde_json` reads from a text is a value that a `Value` can hold and that nests at most 127
/// deep. The compact text of such a value, if each number in it is whole, is read as the value itself,
/// also with a newline at its end. [`crate::is_whole`] ensures of a value in hand that a `Value` can
/// hold it.
pub fn every_value()
    ensures held { (text : List ℕ) (value : Data) → read text ≡ Some value → IsHeld value }
    ensures nests { (text : List ℕ) (value : Data) → read text ≡ Some value → depth value ≤ 127 }
    ensures reads_back { (value : Data) → IsHeld value → IsWhole value → depth value ≤ 127
        → read (compact_text value) ≡ Some value }
    ensures line { (value : Data) → IsHeld value → IsWhole value → depth value ≤ 127
        → read (compact_text value ++ codes "\n") ≡ Some value }
{}

/// The canonical text of a batch is a document of that batch (OData JSON Format 4.01, section 19.1).
///
/// The laws hold for each batch that [`crate::Batch::read`] made of a value that nests at most 127 deep,
/// whether the value was read from a text or built in memory, if each number in the bodies is whole.
/// [`crate::Batch::canonical`] ensures what they ask of the bodies. A batch that was read from a text is
/// such a batch (`from_text`).
///
/// What `serde_json` reads from the canonical text, also with a newline at its end, is the canonical
/// value, which has no fault of shape and is the same batch. So two batches have equal canonical texts
/// if and only if they are equal, and the canonical text of what is read from a canonical text is that
/// text.
pub fn one_text()
    ensures from_text { (text : List ℕ) (batch : List Record) → IsDocumentOf text batch
        → HasWholeBodies batch → HasCanonicalText batch }
    ensures value { (batch : List Record) → HasCanonicalText batch
        → read (canonical_text batch) ≡ Some (canonical_value batch) }
    ensures reads_back { (batch : List Record) → HasCanonicalText batch
        → IsDocumentOf (canonical_text batch) batch }
    ensures line { (batch : List Record) → HasCanonicalText batch
        → IsDocumentOf (canonical_text batch ++ codes "\n") batch }
    ensures equal { (batch other : List Record) → HasCanonicalText batch → HasCanonicalText other
        → (canonical_text batch ≡ canonical_text other) ↔ (batch ≡ other) }
    ensures again { (batch other : List Record) → HasCanonicalText batch
        → IsDocumentOf (canonical_text batch) other
        → canonical_text other ≡ canonical_text batch }
{
    odb_names::laws::one_reading();
}

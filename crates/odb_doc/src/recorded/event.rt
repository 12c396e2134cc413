//! A recorded event: a start, or a report with its outcome.

ghost use Rattle.std.specs.Prelude.{◌≡◌, IfSome, MatchOption, IfOk, IfErr, OnOk, None, Some, option_map, codes, string_bytes};
ghost use Rattle.serde_json.specs.Data.{Data, unsigned};
ghost use Rattle.serde_json.specs.Find.{get};
ghost use Rattle.serde_json.specs.View.{view, number_view};
ghost use Rattle.odb_doc.specs.declared.recorded.event_fault.EventRule.{EventRule};
ghost use Rattle.odb_doc.specs.BrokenRules.{OnRule};
ghost use Rattle.odb_doc.specs.recorded.RawOutcomes.{IsReportOf, IsLeastBrokenEvent};
ghost use Rattle.odb_doc.specs.recorded.Events.{IsReportedStatus, IsWellFormedEvent, IsStart, ReadsAs, event_value};
ghost use Rattle.odb_doc.specs.recorded.LeastEventFault.{BreaksEvent};
ghost use Rattle.odb_doc.specs.Members as members;
ghost use Rattle.odb_doc.specs.WholeNumbers.{IsWhole};

use crate::broken::Broken;
use crate::member::{Object, text_of};
use crate::recorded::event_fault::EventRule;
use crate::recorded::outcome::{Outcome, RawOutcome, moved, raw_outcome_of};
use crate::whole::has_whole_body;
use serde_json::{Number, Value};
use std::alloc::Global;

/// An event of a run, which names its request by the id.
#[derive(Debug, Drop)]
pub enum NamedEvent {
    /// The request was handed to its service.
    Start(String),
    /// The service answered with this outcome. The status is any number of 16 bits.
    Report(String, Outcome),
}

/// Returns the status, or `None` if it is not a whole number of 16 bits.
fn status_of(status: Number) -> Option<u16>
    ensures { MatchOption result (¬ IsReportedStatus (number_view status))
        (λ code. IsReportedStatus (number_view status) × (number_view status ≡ unsigned code)) }
{
    u16::try_from(status.as_u64()?).ok()
}

/// Moves the id out of a start, or returns `None` if the element is not a start.
fn start_of(element: &mut Value) -> Option<String>
    ensures { MatchOption result (¬ IsStart (view element.old))
        (λ id. IsStart (view element.old)
        × (members.text_at (codes "start") (view element.old) ≡ Some (string_bytes id))) }
{
    if Object::Start.has_other(element) {
        return None;
    }
    text_of(moved(element.as_object_mut()?, "start")?)
}

/// Returns the status of the report, or the rule that the report breaks.
fn status_in(raw: &RawOutcome) -> Result<u16, EventRule>
    ensures status { IfOk result (λ code. number_view raw.now.status ≡ unsigned code) }
    ensures whole { OnOk result (IfSome (option_map view raw.now.body) IsWhole) }
    ensures unbroken { OnOk result ((d : Data) → IsReportOf d raw.now
        → (rule : EventRule) → ¬ BreaksEvent rule d) }
    ensures first { IfErr result (λ rule. (d : Data) → IsReportOf d raw.now
        → IsLeastBrokenEvent d rule) }
{
    let Some(status) = status_of(raw.status) else {
        return Err(EventRule::BadEvents);
    };
    if has_whole_body(raw.body.as_ref()) {
        Ok(status)
    } else {
        Err(EventRule::NotWhole)
    }
}

/// Reads an element without a `start`, moving its values out, or returns the rule that it breaks.
fn read_report(alloc: Global, element: &mut Value) -> Result<NamedEvent, Broken<EventRule>>
    requires { get (codes "start") (view element.old) ≡ None }
    ensures unbroken { OnOk result ((rule : EventRule) → ¬ BreaksEvent rule (view element.old)) }
    ensures says { IfOk result (λ event. ReadsAs (view element.old) (event_value event)) }
    ensures well_formed { IfOk result (λ event. IsWellFormedEvent (event_value event)) }
    ensures first { IfErr result (OnRule (IsLeastBrokenEvent (view element.old))) }
{
    let bad = EventRule::BadEvents;
    let raw = raw_outcome_of(alloc, Object::Report, "report", element, bad)?;
    match status_in(&raw) {
        Ok(status) => {
            let outcome = Outcome::new(alloc, status, raw.headers, raw.body)?;
            Ok(NamedEvent::Report(raw.id, outcome))
        }
        Err(rule) => Err(Broken::Rule(rule)),
    }
}

/// Reads an element, moving its values out, or returns the rule that it breaks.
pub(crate) fn read_event(
    alloc: Global,
    element: &mut Value,
) -> Result<NamedEvent, Broken<EventRule>>
    ensures unbroken { OnOk result ((rule : EventRule) → ¬ BreaksEvent rule (view element.old)) }
    ensures says { IfOk result (λ event. ReadsAs (view element.old) (event_value event)) }
    ensures well_formed { IfOk result (λ event. IsWellFormedEvent (event_value event)) }
    ensures first { IfErr result (OnRule (IsLeastBrokenEvent (view element.old))) }
{
    if element.get("start").is_none() {
        return read_report(alloc, element);
    }
    match start_of(element) {
        Some(id) => Ok(NamedEvent::Start(id)),
        None => Err(Broken::Rule(EventRule::BadEvents)),
    }
}

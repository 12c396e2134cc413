//! A document of recorded events.

ghost use Rattle.std.specs.Prelude.{◌==◌, ◌≡◌, ◌<◌, length, slice_get, Some, map, IfOk, IfErr, OnOk, OnErr, All};
ghost use Rattle.std.specs.List.{AllZip};
ghost use Rattle.std.proofs.Props.{props};
ghost use Rattle.serde_json.specs.View.{view};
ghost use Rattle.odb_doc.specs.declared.recorded.event_fault.EventFault.TheVariants as faults;
ghost use Rattle.odb_doc.specs.recorded.Events.{AreEventsOf, IsEventsObject, IsWellFormedEvent, ReadsAs, elements, event_value};
ghost use Rattle.odb_doc.specs.BrokenRules.{OnPlace};
ghost use Rattle.odb_doc.specs.recorded.LeastEventFault.{AreEvents, IsEventsDocument, IsLeastEventRule, RefusesEvents};
ghost use Rattle.odb_doc.specs.recorded.RawOutcomes.{event_fault};

use crate::broken::Broken;
use crate::member::Object;
use crate::recorded::event::{NamedEvent, read_event};
use crate::recorded::event_fault::{EventFault, EventRule};
use crate::recorded::outcomes::Husk;
use serde_json::Value;
use std::alloc::Global;

/// Recorded events of a run, in the order of their document. Each body holds whole numbers alone.
#[derive(Debug, Drop)]
pub struct Events {
    entries: Vec<NamedEvent>,
    ghost well_formed: { All IsWellFormedEvent (map event_value entries.items) } by { Prim.hlevel props },
}

impl From<Broken<(usize, EventRule)>> for EventFault {
    ghost from_gives = { λ broken fault. fault ≡ event_fault broken };

    fn from(broken: Broken<(usize, EventRule)>) -> Self {
        match broken {
            Broken::Rule((at, rule)) => EventFault::Event { at, rule },
            Broken::OutOfMemory => EventFault::OutOfMemory,
        }
    }
}

/// Reads the elements, moving their values out, or returns the first rule that one of them breaks.
fn events_from(
    alloc: Global,
    elements: &mut Vec<Value>,
) -> Result<Vec<NamedEvent>, Broken<(usize, EventRule)>>
    ensures unbroken { OnOk result (AreEvents (map view elements.old.items)) }
    ensures says { IfOk result (λ found. AllZip ReadsAs (map view elements.old.items)
        (map event_value found.items)) }
    ensures well_formed { IfOk result (λ found. All IsWellFormedEvent (map event_value found.items)) }
    ensures first { IfErr result (OnPlace (IsLeastEventRule (map view elements.old.items))) }
    ensures some { OnErr result (0 < length elements.old.items) }
{
    let mut entries = Vec::with_capacity(alloc, elements.len())?;
    for element in elements {
        match read_event(alloc, element) {
            Ok(event) => entries.push(event)?,
            Err(broken) => return Err(broken.at(entries.len())),
        }
    }
    Ok(entries)
}

impl Events {
    ghost use Rattle.odb_doc.specs.recorded.EventLists.{entries};

    /// Reads the events of a document: an object whose one member is `events`, an array of starts,
    /// `{"start":"a"}`, and of reports, `{"report":"a","status":200,"headers":{..},"body":..}`.
    ///
    /// `document` is the value that [`crate::parse`] made. Its ids, headers and bodies are moved out of
    /// it. Allocates the list of events and the maps of their headers. The ids need not be
    /// identifiers of requests, and a status may be any whole number from 0 to 65535. It takes time
    /// linear in the document.
    ///
    /// Example: `recorded` in crates/odb_tests_text/src/examples.rt.
    ///
    /// # Errors
    ///
    /// `Document`, which is F64 of the whole, if the document is not such an object; else F63 or F64 of
    /// the first element that has one. `OutOfMemory` if an allocation fails, in place of the fault of
    /// an element or of events.
    pub fn read(alloc: Global, document: Value) -> Result<Events, EventFault>
        ensures good { OnOk result (IsEventsDocument (view document)) }
        ensures events { IfOk result (λ events. AreEventsOf (view document) (entries events)) }
        ensures least { IfErr result (λ fault. RefusesEvents fault (view document)) }
        ensures memory { IfErr result (λ fault. fault ≡ faults.OutOfMemory
            → IsEventsObject (view document) × (0 < length (elements (view document)))) }
    {
        let (events, _emptied) = Events::split(alloc, document)?;
        Ok(events)
    }

    /// Reads the events of a document, as [`Events::read`] does, and returns what remains of it too.
    ///
    /// # Errors
    ///
    /// Those of [`Events::read`]. Nothing remains of the document then.
    pub fn split(alloc: Global, document: Value) -> Result<(Events, Husk), EventFault>
        ensures good { OnOk result (IsEventsDocument (view document)) }
        ensures events { IfOk result (λ parts. AreEventsOf (view document) (entries parts.0)) }
        ensures least { IfErr result (λ fault. RefusesEvents fault (view document)) }
        ensures memory { IfErr result (λ fault. fault ≡ faults.OutOfMemory
            → IsEventsObject (view document) × (0 < length (elements (view document)))) }
    {
        let Some(mut elements) = Object::Events.elements_at(document, "events") else {
            return Err(EventFault::Document);
        };
        let entries = events_from(alloc, &mut elements)?;
        Ok((Events { entries }, Husk { elements }))
    }

    /// Returns how many events there are.
    pub fn len(&self) -> usize
        ensures count { result ≡ length (entries self.now) }
        ensures well_formed { All IsWellFormedEvent (entries self.now) }
    {
        self.entries.len()
    }

    /// Returns whether there are no events.
    pub fn is_empty(&self) -> bool
        ensures { result ≡ (length (entries self.now) == 0) }
    {
        self.entries.is_empty()
    }

    /// Returns the event at a position, counted from 0.
    pub fn entry(&self, k: usize) -> &NamedEvent
        requires { k < length (entries self.now) }
        ensures value { slice_get (entries self.now) k ≡ Some (event_value result.now) }
        ensures well_formed { IsWellFormedEvent (event_value result.now) }
    {
        &self.entries[k]
    }

    /// Returns the events in the order of the document. It takes no memory.
    pub fn into_vec(self) -> Vec<NamedEvent>
        ensures value { map event_value result.items ≡ entries self }
        ensures well_formed { All IsWellFormedEvent (entries self) }
    {
        let Events { entries } = self;
        entries
    }
}

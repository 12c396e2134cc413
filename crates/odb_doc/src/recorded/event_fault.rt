//! The rules of a document of recorded events, and where one is broken.

ghost use Rattle.std.specs.Prelude.{◌≡◌};
ghost use Rattle.odb_doc.specs.recorded.EventFaults.{event_row};

use crate::fault::Place;
use crate::refusal::{Fault, Refusal};
use thiserror::Error;

/// A rule that one recorded event breaks.
#[derive(Clone, Copy, Debug, PartialEq, Eq, Error)]
pub enum EventRule {
    /// F63: the event is a report, and its `body` holds a number that is not whole.
    #[error("`body` holds a number that is not whole")]
    NotWhole,
    /// F64: the element is neither a start, which is an object with a string `start` and nothing else,
    /// nor a report: an object with a string `report`, a whole `status` from 0 to 65535, maybe
    /// `headers` whose names differ in more than their case, and maybe a `body`.
    #[error("it is neither a start nor a report")]
    BadEvents,
}

/// Why a document is not a valid list of recorded events.
#[derive(Clone, Copy, Debug, PartialEq, Eq, Error)]
pub enum EventFault {
    /// F64: the document has another member than `events`, or no array there.
    #[error("the document is not an object with an array `events` alone")]
    Document,
    /// The event at this position, counted from 0, breaks this rule.
    #[error("event {at}: {rule}")]
    Event { at: usize, rule: EventRule },
    /// An allocation failed. The document may have a fault or none.
    #[error("out of memory")]
    OutOfMemory,
}

impl EventRule {
    ghost use Rattle.odb_doc.specs.Refusals.{code_of};
    ghost use Rattle.odb_doc.specs.recorded.EventFaults.{rule_label};

    /// Returns the code and the name.
    fn row(self) -> (&'static str, &'static str)
        ensures code { result.0.now ≡ code_of (rule_label self).0 }
        ensures name { result.1.now ≡ (rule_label self).1 }
    {
        match self {
            EventRule::NotWhole => ("F63", "NotWhole"),
            EventRule::BadEvents => ("F64", "BadEvents"),
        }
    }
}

impl Fault for EventFault {
    ghost row = { event_row };

    fn refusal(&self) -> Option<Refusal> {
        match *self {
            EventFault::Document => Some(Refusal::new(EventRule::BadEvents.row(), Place::Events)),
            EventFault::Event { at, rule } => Some(Refusal::new(rule.row(), Place::Event(at))),
            EventFault::OutOfMemory => None,
        }
    }
}

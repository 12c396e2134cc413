//! The rules of a document of recorded outcomes, and where one is broken.

ghost use Rattle.std.specs.Prelude.{◌≡◌};
ghost use Rattle.odb_doc.specs.recorded.OutcomeFaults.{outcome_row};

use crate::fault::Place;
use crate::refusal::{Fault, Refusal};
use thiserror::Error;

/// A rule that one recorded outcome breaks.
#[derive(Clone, Copy, Debug, PartialEq, Eq, Error)]
pub enum OutcomeRule {
    /// F60: the element does not have the form of an outcome: an object with a string `id`, a number
    /// `status`, maybe `headers` (strings under names that differ in more than their case), maybe a
    /// `body`, and no other member.
    #[error("it is not an object with `id` and `status`, and maybe `headers` and `body`")]
    BadOutcomes,
    /// F61: an earlier outcome has the same `id`.
    #[error("an earlier outcome has the same `id`")]
    OutcomeTwice,
    /// F62: the number at `status` is below 200 or above 599, or not whole.
    #[error("`status` is not a whole number from 200 to 599")]
    BadStatus,
    /// F63: `body` holds a number that is not whole.
    #[error("`body` holds a number that is not whole")]
    NotWhole,
}

/// Why a document is not a valid list of recorded outcomes.
#[derive(Clone, Copy, Debug, PartialEq, Eq, Error)]
pub enum OutcomeFault {
    /// F60: the document has another member than `outcomes`, or no array there.
    #[error("the document is not an object with an array `outcomes` alone")]
    Document,
    /// The outcome at this position, counted from 0, breaks this rule.
    #[error("outcome {at}: {rule}")]
    Outcome { at: usize, rule: OutcomeRule },
    /// An allocation failed. The document may have a fault or none.
    #[error("out of memory")]
    OutOfMemory,
}

impl OutcomeRule {
    ghost use Rattle.odb_doc.specs.Refusals.{code_of};
    ghost use Rattle.odb_doc.specs.recorded.OutcomeFaults.{rule_label};

    /// Returns the code and the name.
    fn row(self) -> (&'static str, &'static str)
        ensures code { result.0.now ≡ code_of (rule_label self).0 }
        ensures name { result.1.now ≡ (rule_label self).1 }
    {
        match self {
            OutcomeRule::BadOutcomes => ("F60", "BadOutcomes"),
            OutcomeRule::OutcomeTwice => ("F61", "OutcomeTwice"),
            OutcomeRule::BadStatus => ("F62", "BadStatus"),
            OutcomeRule::NotWhole => ("F63", "NotWhole"),
        }
    }
}

impl Fault for OutcomeFault {
    ghost row = { outcome_row };

    fn refusal(&self) -> Option<Refusal> {
        match *self {
            OutcomeFault::Document => Some(Refusal::new(
                OutcomeRule::BadOutcomes.row(),
                Place::Outcomes,
            )),
            OutcomeFault::Outcome { at, rule } => Some(Refusal::new(
                rule.row(),
                Place::Outcome(at),
            )),
            OutcomeFault::OutOfMemory => None,
        }
    }
}

//! What performs the requests of an execution: a service, or a record of outcomes.

ghost use Rattle.std.specs.Prelude.{◌≡◌, ◌<◌, ℕ, None, Some, length, map, slice_set, IfOk, Err, String};
ghost use Rattle.std.specs.declared.alloc.Global.{Global};
ghost use Rattle.odb_check.specs.Plans.{plan_records};
ghost use Rattle.odb_exec.specs.Recordings.{recorded_for, noted_at};
ghost use Rattle.odb_check.specs.Units.{position_of};
ghost use Rattle.odb_doc.specs.recorded.Outcomes.{recorded};
ghost use Rattle.odb_doc.specs.recorded.OutcomeLists.{entries};

use odb_check::Plan;
use odb_dense::none_for_each;
use odb_doc::{Disposal, Outcome, Outcomes, Request};
use std::alloc::{AllocError, Global};
use std::marker::Model;
use thiserror::Error;

/// Why a service returns no outcome.
#[derive(Clone, Copy, Debug, PartialEq, Eq, Error)]
pub enum ServiceFault {
    /// It has none for this request.
    #[error("there is no outcome for the request")]
    NoOutcome,
    /// It failed.
    #[error("the service failed")]
    Failed,
    /// Allocation failed. That says nothing of the request.
    #[error("out of memory")]
    OutOfMemory,
}

/// Performs requests (OData JSON Format 4.01, section 19.4).
///
/// Each service defines by `offers` what it may answer, where an answer for one request changes
/// nothing of what it may answer for another, and by `performs` what a call does to it. A service that
/// promises nothing writes `λ _ _ _. Unit {0}` and `λ _ _ _ _ _. Unit {0}`.
pub trait Service {
    ghost use Rattle.std.specs.Prelude.{◌≢◌, ℕ, Result, Err};
    ghost use Rattle.odb_doc.specs.declared.recorded.outcome.Outcome.{Outcome};
    ghost use Rattle.odb_doc.specs.batch.Records.{Record, record_of};
    ghost use Rattle.odb_exec.specs.declared.service.ServiceFault.{ServiceFault};
    ghost use Rattle.odb_exec.specs.declared.service.ServiceFault.TheVariants.{OutOfMemory};

    /// The answers that it may give now for the request at a position.
    ghost offers: { Self → ℕ → Result Outcome ServiceFault → Type 0 };

    /// What one call does: the service before it, the position, the request, the answer, and the
    /// service after it. An execution makes one call for each report, in the order of the reports.
    ghost performs: { Self → ℕ → Record → Result Outcome ServiceFault → Self → Type 0 };

    /// Performs the request at position `i` of its batch, counted from 0, and returns its outcome.
    ///
    /// # Errors
    ///
    /// If the service has no outcome for it, failed, or ran out of memory.
    fn perform(&mut self, i: u32, request: &Request<'_>) -> Result<Outcome, ServiceFault>
        ensures performed { performs self.old i (record_of request.now) result self.new }
        ensures offered { result ≢ Err OutOfMemory → offers self.old i result }
        ensures narrows { (j : ℕ) (answer : Result Outcome ServiceFault) → j ≢ i
            → offers self.new j answer → offers self.old j answer };
}

/// A service that returns recorded outcomes, each once, for the requests whose ids they name, and
/// has none for the others (OData JSON Format 4.01, section 19.5).
#[derive(Drop)]
pub struct Recorded {
    outcomes: Vec<Option<Outcome>>,
}

impl Model for Recorded {
    ghost use Rattle.std.specs.Prelude.{List, Option};
    ghost use Rattle.odb_doc.specs.declared.recorded.outcome.Outcome.{Outcome};

    ghost Value = { List (Option Outcome) };

    ghost use Rattle.odb_doc.specs.contracts.recorded.outcome.Outcome as outcome;
    ghost use Rattle.std.specs.Coded.{codes};

    ghost coded = { Prim.hlevel (codes, outcome.the_row.coded) };

    ghost view = { λ s. s.outcomes.items };
}

/// Records the outcome of the request with this id. An id that the plan does not have is ignored.
fn note(plan: &Plan<'_>, outcomes: &mut [Option<Outcome>], guess: usize, id: &str, outcome: Outcome)
    requires { length outcomes.old ≡ length (plan_records plan.now) }
    ensures { outcomes.new ≡ noted_at (position_of (plan_records plan.now) id.now) outcomes.old
        outcome }
{
    if let Some(i) = plan.position_near(guess, id) {
        outcomes[i as usize] = Some(outcome);
    }
}

/// Returns the recorded outcome for each request of the plan: that of the first entry with its id. The ids are dropped or
/// leaked.
fn by_position(
    alloc: Global,
    plan: &Plan<'_>,
    mut entries: Vec<(String, Outcome)>,
    disposal: Disposal,
) -> Result<Vec<Option<Outcome>>, AllocError>
    ensures { IfOk result (λ outcomes. outcomes.items
        ≡ recorded_for (plan_records plan.now) (map recorded entries.items)) }
{
    odb_check::laws::every_plan(plan);
    let mut outcomes = none_for_each(alloc, plan.len())?;
    while let Some((id, outcome)) = entries.pop() {
        note(plan, &mut outcomes, entries.len(), &id, outcome);
        disposal.end(id);
    }
    Ok(outcomes)
}

impl Recorded {
    /// Returns a service of the outcomes that are recorded for the requests of a plan. An outcome
    /// with another id is ignored.
    pub fn new(alloc: Global, plan: &Plan<'_>, outcomes: Outcomes) -> Result<Recorded, AllocError>
        ensures { IfOk result (λ recorded. recorded
            ≡ recorded_for (plan_records plan.now) (entries outcomes)) }
    {
        Recorded::with_disposal(alloc, plan, outcomes, Disposal::Drop)
    }

    /// Returns what [`Recorded::new`] returns. The ids of the outcomes are dropped or leaked.
    pub fn with_disposal(
        alloc: Global,
        plan: &Plan<'_>,
        outcomes: Outcomes,
        disposal: Disposal,
    ) -> Result<Recorded, AllocError>
        ensures { IfOk result (λ recorded. recorded
            ≡ recorded_for (plan_records plan.now) (entries outcomes)) }
    {
        let outcomes = by_position(alloc, plan, outcomes.into_vec(), disposal)?;
        Ok(Recorded { outcomes })
    }
}

impl Service for Recorded {
    ghost use Rattle.odb_exec.specs.Recordings.{OffersRecorded, PerformsRecorded, offered};
    ghost use Rattle.std.specs.Prelude.{slice_index_or};
    ghost use Rattle.odb_exec.specs.declared.service.ServiceFault.TheVariants.{NoOutcome};

    ghost offers = { OffersRecorded };

    ghost performs = { PerformsRecorded };

    fn perform(&mut self, i: u32, _request: &Request<'_>) -> Result<Outcome, ServiceFault>
        ensures given { result ≡ offered (slice_index_or self.old i None) }
        ensures moved_out { self.new ≡ slice_set self.old i None }
        ensures unchanged { result ≡ Err NoOutcome → self.new ≡ self.old }
    {
        match self.outcomes.get_mut(i as usize) {
            Some(outcome) => outcome.take().ok_or(ServiceFault::NoOutcome),
            None => Err(ServiceFault::NoOutcome),
        }
    }
}

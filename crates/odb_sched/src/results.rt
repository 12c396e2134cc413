//! The results of a run: what each request reported and is answered, and what has to be undone.

ghost use Rattle.std.specs.Prelude.{◌≡◌, ◌<◌, ℕ, true, false, All, IsTrue, IfOk, option_map};
ghost use Rattle.odb_doc.specs.Statuses.{is_status};
ghost use Rattle.odb_sched.specs.declared.policy.Mode.TheVariants as modes;
ghost use Rattle.odb_sched.specs.run.Answers as answers;
ghost use Rattle.odb_sched.specs.run.Laws as laws;
ghost use Rattle.odb_sched.specs.run.State as state;
ghost use Rattle.odb_sched.specs.run.Steps as steps;

use crate::answer::Answer;
use crate::owned::OwnedRun;
use crate::phase::Phase;
use odb_doc::Outcome;
use odb_doc::status::is_success;
use std::alloc::{AllocError, Global};

impl OwnedRun {
    /// Returns whether request `i` reported a success but its unit did not succeed. If the run is
    /// finished, it is answered 424.
    pub fn is_undone(&self, i: u32) -> bool
        requires { i < state.size self.now }
        ensures { result ≡ answers.is_undone self.now i }
    {
        self.phase(i).has_succeeded() && !self.unit_succeeded(i)
    }

    /// Returns the positions of the requests that reported a success but whose unit did not succeed:
    /// from the last to the first. If the run is finished, they are answered 424.
    ///
    /// Costs O(requests).
    ///
    /// # Errors
    ///
    /// If memory for the positions cannot be allocated.
    pub fn undone(&self, alloc: Global) -> Result<Vec<u32>, AllocError>
        ensures value { IfOk result (λ positions. positions.items ≡ answers.undone self.now) }
        ensures within { IfOk result (λ positions.
            All (λ i. i < state.size self.now) positions.items) }
    {
        let mut positions = Vec::new(alloc);
        for i in (0..self.len()).rev() {
            if self.is_undone(i) {
                positions.push(i)?;
            }
        }
        Ok(positions)
    }

    /// Returns the answer to request `i`, counted from 0, of a finished run. Its status is from 200 to
    /// 599.
    pub fn answer(&self, i: u32) -> Answer<'_>
        requires finished { steps.is_finished self.now ≡ true }
        requires request { i < state.size self.now }
        ensures value { answers.shown result ≡ answers.answer self.now i }
        ensures status { IsTrue (is_status (answers.status_of (answers.shown result))) }
    {
        self.reached();
        match self.phase(i) {
            Phase::Reported(outcome) => {
                if is_success(outcome.status) && !self.unit_succeeded(i) {
                    Answer::FailedDependency
                } else {
                    Answer::Reported(outcome)
                }
            }
            _ => Answer::FailedDependency,
        }
    }

    /// Returns the outcome that request `i` reported, if it did: also one that has to be undone.
    pub fn reported(&self, i: u32) -> Option<&Outcome>
        requires { i < state.size self.now }
        ensures { option_map (λ outcome. outcome.now) result ≡ answers.reported self.now i }
    {
        match self.phase(i) {
            Phase::Reported(outcome) => Some(outcome),
            _ => None,
        }
    }

    /// What holds of the answers of every finished run, the first two unless its caller stopped it, as
    /// [`crate::laws::every_result`] states it of lists of events. It changes nothing.
    pub fn laws(&self)
        requires { steps.is_finished self.now ≡ true }
        ensures one_result { self.now.closed ≡ false → self.now.policy.mode ≡ modes.Continue
            → laws.HasOneResult self.now }
        ensures by_statuses { self.now.closed ≡ false → self.now.policy.mode ≡ modes.Continue
            → laws.HasResultByStatuses self.now }
        ensures agrees_with_table { laws.AgreesWithTable self.now }
        ensures all_or_none { laws.IsAllOrNone self.now }
        ensures rests_on_successes { laws.RestsOnSuccesses self.now }
        ensures statuses { answers.HasStatuses self.now }
        ensures answered { (i : ℕ) → is_status (answers.status_of (answers.answer self.now i)) ≡ true }
    {
        self.reached();
    }
}

//! A finished run beside its plan.

ghost use Rattle.std.specs.Prelude.{All, option_map, ℕ, ◌≡◌, ◌<◌, true, false, length, IfOk};
ghost use Rattle.odb_check.specs.Plans.{plan_records};
ghost use Rattle.odb_sched.specs.declared.policy.Mode.TheVariants.{Continue};
ghost use Rattle.odb_sched.specs.run.State as state;
ghost use Rattle.odb_sched.specs.run.Steps as steps;
ghost use Rattle.odb_sched.specs.run.Laws as laws;

use crate::answer::Answer;
use crate::owned::OwnedRun;
use odb_check::Plan;
use odb_doc::Outcome;
use std::alloc::{AllocError, Global};
use std::marker::Model;

/// A finished run, with its answers (OData JSON Format 4.01, section 19.5).
#[derive(Drop)]
pub struct Done<'p> {
    pub(crate) plan: &'p Plan<'p>,
    pub(crate) run: OwnedRun,
}

impl<'p> Model for Done<'p> {
    ghost use Rattle.odb_doc.specs.DataCodes.{data_code, method_code};
    ghost use Rattle.odb_sched.specs.run.State.{State};

    ghost Value = { State };

    ghost use Rattle.odb_sched.specs.contracts.phase.Phase as phase;
    ghost use Rattle.odb_sched.specs.contracts.policy.Policy as policies;
    ghost use Rattle.std.specs.Coded.{codes};

    ghost coded = { Prim.hlevel (codes, data_code, method_code, policies.the_row.coded, phase.the_row.coded) };

    ghost use Rattle.odb_sched.specs.invariants.Kept.{last_state, HasFinished};

    ghost view = { last_state };

    ghost invariant = { HasFinished };
}

impl<'p> Done<'p> {
    ghost use Rattle.std.specs.Prelude.{IsTrue};
    ghost use Rattle.odb_sched.specs.run.Answers as answers;
    ghost use Rattle.odb_doc.specs.Statuses.{is_status};

    /// Returns the run without its plan.
    pub fn run(&self) -> &OwnedRun
        ensures state { state.with_requests self.now.requests result.now ≡ self.now }
        ensures finished { steps.is_finished result.now ≡ true }
    {
        &self.run
    }

    /// Returns a plan of the requests that were run, with the units and needs of the plan that was run.
    pub fn plan(&self) -> &'p Plan<'p>
        ensures plan { plan_records result.now ≡ self.now.requests }
        ensures plan_graph { state.plan_graph result.now ≡ self.now.plan_graph }
        ensures size { state.size self.now ≡ length self.now.requests }
    {
        self.plan
    }

    /// What holds of the answers of every finished run, the first two unless its caller stopped it, as
    /// [`crate::laws::every_result`] states it of lists of events. It changes nothing.
    pub fn laws(&self)
        ensures finished { steps.is_finished self.now ≡ true }
        ensures one_result { self.now.closed ≡ false → self.now.policy.mode ≡ Continue
            → laws.HasOneResult self.now }
        ensures by_statuses { self.now.closed ≡ false → self.now.policy.mode ≡ Continue
            → laws.HasResultByStatuses self.now }
        ensures agrees_with_table { laws.AgreesWithTable self.now }
        ensures all_or_none { laws.IsAllOrNone self.now }
        ensures rests_on_successes { laws.RestsOnSuccesses self.now }
        ensures statuses { answers.HasStatuses self.now }
        ensures answered { (i : ℕ) → is_status (answers.status_of (answers.answer self.now i)) ≡ true }
    {
        self.run().laws();
    }

    /// Returns the answer to request `i`, counted from 0. Its status is from 200 to 599.
    pub fn answer(&self, i: u32) -> Answer<'_>
        requires { i < state.size self.now }
        ensures value { answers.shown result ≡ answers.answer self.now i }
        ensures status { IsTrue (is_status (answers.status_of (answers.shown result))) }
    {
        self.run().answer(i)
    }

    /// Returns the outcome that request `i` reported, if it did: also one that has to be undone.
    pub fn reported(&self, i: u32) -> Option<&Outcome>
        requires { i < state.size self.now }
        ensures { option_map (λ outcome. outcome.now) result ≡ answers.reported self.now i }
    {
        self.run().reported(i)
    }

    /// Returns the positions of the requests that reported a success but are answered 424, since
    /// their unit did not succeed: from the last to the first.
    pub fn undone(&self, alloc: Global) -> Result<Vec<u32>, AllocError>
        ensures value { IfOk result (λ positions. positions.items ≡ answers.undone self.now) }
        ensures within { IfOk result (λ positions.
            All (λ i. i < state.size self.now) positions.items) }
    {
        self.run().undone(alloc)
    }
}

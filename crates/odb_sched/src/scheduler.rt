//! A run of a plan, with the requests of the plan.

ghost use Rattle.std.specs.Prelude.{◌≡◌, ◌≢◌, ◌<◌, ◌≤◌, ◌↔◌, ℕ, true, false, List, Some, length, slice_set, replicate, IsTrue, IsOk, IfOk, IfErr, IfSome, OnOk, OnErr, None, All};
ghost use Rattle.odb_check.specs.Plans.{plan_records};
ghost use Rattle.odb_sched.specs.declared.policy.Mode.TheVariants as modes;
ghost use Rattle.odb_sched.specs.declared.refusal.StartRefusal.TheVariants.{WidthReached};
ghost use Rattle.odb_dense.specs.Lists.{ListsOnce};
ghost use Rattle.odb_sched.specs.run.State as state;
ghost use Rattle.odb_sched.specs.run.Steps as steps;
ghost use Rattle.odb_sched.specs.run.Steps.{IsStartCause, IsReportCause};
ghost use Rattle.odb_sched.specs.run.Choosing.{IsNext, AllowsOrder};
ghost use Rattle.odb_sched.specs.run.Laws as laws;

use crate::done::Done;
use crate::event::Step;
use crate::laws::every_start;
use crate::order::Order;
use crate::owned::OwnedRun;
use crate::policy::Policy;
use crate::refusal::{ReportRefusal, StartRefusal};
use odb_check::Plan;
use odb_doc::Outcome;
use std::alloc::{AllocError, Global};
use std::marker::Model;

/// A run of a plan, as far as it has come (OData Protocol 4.01, section 11.7).
///
/// `start` costs O(dependencies of the request); all reports of a run together cost O(requests +
/// dependencies). `ready`, `running` and `is_finished` take constant time.
#[derive(Drop)]
pub struct Scheduler<'p> {
    plan: &'p Plan<'p>,
    run: OwnedRun,
}

impl<'p> Model for Scheduler<'p> {
    ghost use Rattle.odb_doc.specs.DataCodes.{data_code, method_code};
    ghost use Rattle.odb_sched.specs.run.State.{State};

    ghost Value = { State };

    ghost use Rattle.odb_sched.specs.contracts.phase.Phase as phase;
    ghost use Rattle.odb_sched.specs.contracts.policy.Policy as policies;
    ghost use Rattle.std.specs.Coded.{codes};

    ghost coded = { Prim.hlevel (codes, data_code, method_code, policies.the_row.coded, phase.the_row.coded) };

    ghost use Rattle.odb_sched.specs.invariants.Kept.{planned_state, IsDriven};

    ghost view = { planned_state };

    ghost invariant = { IsDriven };
}

impl<'p> Scheduler<'p> {
    /// Returns a run before its first event. It allocates all that the run needs: later calls
    /// allocate nothing, and outcomes are moved in, not copied.
    ///
    /// Example: `holds_by_hand` in crates/odb_tests_exec/src/runs/events.rt.
    pub fn new<'a: 'p>(
        alloc: Global,
        plan: &'p Plan<'a>,
        policy: Policy,
    ) -> Result<Scheduler<'p>, AllocError>
        ensures state { IfOk result (λ scheduler. scheduler
            ≡ state.initial plan.now policy) }
        ensures size { IfOk result (λ scheduler. state.size scheduler
            ≡ length (plan_records plan.now)) }
    {
        let run = OwnedRun::new(alloc, plan, policy)?;
        Ok(Scheduler { plan, run })
    }

    /// Returns the run without its requests.
    pub fn into_owned(self) -> OwnedRun
        ensures state { result ≡ state.without_requests self.entry }
        ensures going { result.closed ≡ false }
    {
        self.run.reached();
        self.run
    }

    /// Starts request `i`, counted from 0.
    ///
    /// # Errors
    ///
    /// The first of the causes S1 to S5 that applies; the run is unchanged.
    pub fn start(&mut self, i: u32) -> Result<(), StartRefusal>
        requires { i < state.size self.old }
        ensures ok { OnOk result (self.new ≡ state.started self.old i) }
        ensures allowed { IsOk result ↔ IsTrue (steps.may_start self.old i) }
        ensures cause { IfErr result (IsStartCause self.old i) }
        ensures err { OnErr result (self.new ≡ self.old) }
        ensures dependencies_first { OnOk result
            (laws.HaveSucceeded self.old.requests self.old i) }
        ensures free { 10000 ≤ self.old.policy.width
            → IfErr result (λ cause. cause ≢ WidthReached) }
    {
        every_start(self.plan);
        self.run.start(i)
    }

    /// Takes the outcome of a running request.
    ///
    /// # Errors
    ///
    /// The first of P1 and P2 that applies, with the outcome; the run is unchanged.
    pub fn report(&mut self, i: u32, outcome: Outcome) -> Result<(), (ReportRefusal, Outcome)>
        requires { i < state.size self.old }
        ensures ok { OnOk result (self.new ≡ state.reported self.old i outcome) }
        ensures allowed { IsOk result ↔ IsTrue (steps.may_report self.old i outcome) }
        ensures cause { IfErr result (λ e. IsReportCause self.old i outcome e.0) }
        ensures back { IfErr result (λ e. e.1 ≡ outcome) }
        ensures err { OnErr result (self.new ≡ self.old) }
    {
        self.run.report(i, outcome)
    }

    /// Returns the ready positions, each once, in no particular order.
    pub fn ready(&self) -> &[u32]
        ensures listed { ListsOnce (state.size self.now) (steps.may_start self.now) result.now }
        ensures within { All (λ i. i < state.size self.now) result.now }
    {
        self.run.ready()
    }

    /// Returns the running positions, each once, in no particular order.
    pub fn running(&self) -> &[u32]
        ensures listed { ListsOnce (state.size self.now)
            (λ i. state.is_running (state.phase_at self.now i)) result.now }
        ensures within { All (λ i. i < state.size self.now) result.now }
        ensures width { length result.now ≤ self.now.policy.width }
    {
        self.run.running()
    }

    /// Returns the next step in an order, or `None` if the run is finished. It takes no step, and costs
    /// constant time.
    pub fn next_in(&mut self, order: Order) -> Option<Step>
        ensures same { self.new ≡ self.old }
        ensures finished { result ≡ None → steps.is_finished self.old ≡ true }
        ensures next { IfSome result (IsNext (AllowsOrder order) self.old) }
    {
        self.run.next_in(order)
    }

    /// Returns whether no event may come any more: no request is running, and the run is stopped or
    /// each request was reported or will never start.
    pub fn is_finished(&self) -> bool
        ensures value { result ≡ steps.is_finished self.now }
        ensures idle { IsTrue result ↔ ((i : ℕ) → i < state.size self.now
            → (steps.may_start self.now i ≡ false)
            × (state.is_running (state.phase_at self.now i) ≡ false)) }
    {
        self.run.is_finished()
    }

    /// Ends a finished run and returns its answers.
    pub fn close(self) -> Done<'p>
        requires { steps.is_finished self ≡ true }
        ensures state { result ≡ self.entry }
        ensures one_result { self.entry.policy.mode ≡ modes.Continue → laws.HasOneResult result }
        ensures agrees_with_table { laws.AgreesWithTable result }
        ensures all_or_none { laws.IsAllOrNone result }
        ensures rests_on_successes { laws.RestsOnSuccesses result }
    {
        let done = Done {
            plan: self.plan,
            run: self.run,
        };
        done.laws();
        done
    }
}

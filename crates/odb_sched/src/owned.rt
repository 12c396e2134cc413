//! A run that borrows nothing: which event may come, and what it changes.

ghost use Rattle.std.specs.Prelude.{◌≡◌, ◌≢◌, ◌==◌, ◌<◌, ◌≤◌, ◌↔◌, ℕ, [], true, false, None, All, length, IsTrue, IsOk, IfOk, IfErr, IfSome, OnOk, OnErr};
ghost use Rattle.odb_check.specs.Plans.{plan_records};
ghost use Rattle.odb_check.specs.PlanGraph.{unit_of};
ghost use Rattle.odb_dense.specs.Lists.{ListsOnce};
ghost use Rattle.odb_sched.specs.declared.refusal.StartRefusal.TheVariants.{WidthReached};
ghost use Rattle.odb_sched.specs.run.Choosing.{IsNext, IsNone, AllowsOrder, ReportsFirst, StartsFirst, ready_set, running_set};
ghost use Rattle.odb_sched.specs.run.Steps.{IsStartCause, IsReportCause};
ghost use Rattle.odb_sched.specs.invariants.Ends.{IsAt};
ghost use Rattle.odb_sched.specs.run.State as state;
ghost use Rattle.odb_sched.specs.invariants.Kept.{first_of, IsReached};
ghost use Rattle.odb_sched.specs.run.Steps as steps;

mod moment;
mod stop;
mod units;

use crate::counts::Progress;
use crate::event::Step;
use crate::graph::Graph;
use crate::order::{End, Order};
use crate::phase::Phase;
use crate::policy::Policy;
use crate::refusal::{ReportRefusal, StartRefusal};
use odb_check::Plan;
use odb_doc::Outcome;
use odb_doc::status::is_status;
use std::alloc::{AllocError, Global};
use std::marker::Model;

/// A run of a plan that borrows nothing: the numbers of the plan, and how far the run has come, with
/// the outcomes that were reported (OData Protocol 4.01, section 11.7).
///
/// It knows its requests by their positions alone. So it outlives the document and the plan that it
/// was made for. Its calls cost what those of a scheduler do.
#[derive(Drop)]
pub struct OwnedRun {
    graph: Graph,
    policy: Policy,
    progress: Progress,
}

impl Model for OwnedRun {
    ghost use Rattle.odb_doc.specs.DataCodes.{data_code, method_code};
    ghost use Rattle.odb_sched.specs.run.State.{State};

    ghost Value = { State };

    ghost use Rattle.odb_sched.specs.contracts.phase.Phase as phase;
    ghost use Rattle.odb_sched.specs.contracts.policy.Policy as policies;
    ghost use Rattle.std.specs.Coded.{codes};

    ghost coded = { Prim.hlevel (codes, data_code, method_code, policies.the_row.coded, phase.the_row.coded) };

    ghost use Rattle.odb_sched.specs.invariants.Kept.{kept_state, IsKept};

    ghost view = { kept_state };

    ghost invariant = { IsKept };
}

impl OwnedRun {
    /// Returns a run before its first event. It allocates all that the run needs: later calls
    /// allocate nothing, and outcomes are moved in, not copied.
    ///
    /// # Errors
    ///
    /// If memory for the requests, the units and the dependencies cannot be allocated.
    pub fn new(alloc: Global, plan: &Plan<'_>, policy: Policy) -> Result<OwnedRun, AllocError>
        ensures state { IfOk result (λ run. run
            ≡ state.without_requests (state.initial plan.now policy)) }
        ensures size { IfOk result (λ run. state.size run ≡ length (plan_records plan.now)) }
    {
        OwnedRun::of_graph(alloc, Graph::new(alloc, plan)?, policy)
    }

    /// Returns a run of these numbers before its first event.
    fn of_graph(alloc: Global, graph: Graph, policy: Policy) -> Result<OwnedRun, AllocError>
        ensures { IfOk result (λ run. run ≡ first_of graph.plan_graph policy) }
    {
        graph.laws();
        let progress = Progress::new(alloc, &graph)?;
        Ok(OwnedRun {
            graph,
            policy,
            progress,
        })
    }

    /// Returns the number of requests: 10,000 at most.
    pub fn len(&self) -> u32
        ensures size { result ≡ state.size self.now }
        ensures small { result ≤ 10000 }
    {
        self.graph.len()
    }

    /// Returns whether there are no requests.
    pub fn is_empty(&self) -> bool
        ensures { result ≡ (state.size self.now == 0) }
    {
        self.graph.len() == 0
    }

    /// Returns whether the unit of a request has failed.
    fn unit_failed(&self, i: u32) -> bool
        requires { i < state.size self.now }
        ensures { result ≡ steps.unit_failed self.now (unit_of self.now.plan_graph i) }
    {
        self.progress
            .counts
            .failed
            .is_visited(self.graph.unit_of(i))
    }

    /// Returns the first cause why a request may not start.
    fn start_refusal(&self, i: u32) -> Option<StartRefusal>
        requires { i < state.size self.now }
        ensures cause { IfSome result (IsStartCause self.now i) }
        ensures none { result ≡ None → steps.may_start self.now i ≡ true }
    {
        if !self.phase(i).is_unstarted() {
            return Some(StartRefusal::AlreadyStarted);
        }
        if self.progress.stopped {
            return Some(StartRefusal::Stopped);
        }
        if self.unit_failed(i) {
            return Some(StartRefusal::UnitFailed);
        }
        if let Some(need) = self.progress.first_unmet(&self.graph, i) {
            return Some(StartRefusal::Waiting(need));
        }
        if self.progress.is_full(self.policy) {
            return Some(StartRefusal::WidthReached);
        }
        None
    }

    /// Starts request `i`, counted from 0.
    ///
    /// # Errors
    ///
    /// The first of the causes S1 to S5 that applies; the run is unchanged.
    pub fn start(&mut self, i: u32) -> Result<(), StartRefusal>
        requires { i < state.size self.old }
        ensures ok { OnOk result (self.new ≡ state.started self.old i) }
        ensures allowed { IsOk result ↔ IsTrue (steps.may_start self.old i) }
        ensures cause { IfErr result (IsStartCause self.old i) }
        ensures err { OnErr result (self.new ≡ self.old) }
        ensures free { 10000 ≤ self.old.policy.width
            → IfErr result (λ cause. cause ≢ WidthReached) }
    {
        if let Some(cause) = self.start_refusal(i) {
            return Err(cause);
        }
        self.progress.begin(&self.graph, i);
        Ok(())
    }

    /// Returns the first cause why an outcome is not accepted.
    fn report_refusal(&self, i: u32, outcome: &Outcome) -> Option<ReportRefusal>
        requires { i < state.size self.now }
        ensures cause { IfSome result (IsReportCause self.now i outcome.now) }
        ensures none { result ≡ None → steps.may_report self.now i outcome.now ≡ true }
    {
        if !self.phase(i).is_running() {
            return Some(ReportRefusal::NotRunning);
        }
        if !is_status(outcome.status) {
            return Some(ReportRefusal::BadStatus);
        }
        None
    }

    /// Takes the outcome of a running request.
    ///
    /// # Errors
    ///
    /// The first of P1 and P2 that applies, with the outcome; the run is unchanged.
    pub fn report(&mut self, i: u32, outcome: Outcome) -> Result<(), (ReportRefusal, Outcome)>
        requires { i < state.size self.old }
        ensures ok { OnOk result (self.new ≡ state.reported self.old i outcome) }
        ensures allowed { IsOk result ↔ IsTrue (steps.may_report self.old i outcome) }
        ensures cause { IfErr result (λ e. IsReportCause self.old i outcome e.0) }
        ensures back { IfErr result (λ e. e.1 ≡ outcome) }
        ensures err { OnErr result (self.new ≡ self.old) }
    {
        if let Some(cause) = self.report_refusal(i, &outcome) {
            return Err((cause, outcome));
        }
        self.progress.report(&self.graph, self.policy, i, outcome);
        Ok(())
    }

    /// Returns the ready positions, each once, in no particular order.
    pub fn ready(&self) -> &[u32]
        ensures listed { ListsOnce (state.size self.now) (steps.may_start self.now) result.now }
        ensures within { All (λ i. i < state.size self.now) result.now }
    {
        self.progress.ready(self.policy)
    }

    /// Returns the running positions, each once, in no particular order.
    pub fn running(&self) -> &[u32]
        ensures listed { ListsOnce (state.size self.now)
            (λ i. state.is_running (state.phase_at self.now i)) result.now }
        ensures within { All (λ i. i < state.size self.now) result.now }
        ensures width { length result.now ≤ steps.places self.now }
    {
        self.progress.counts.running.as_slice()
    }

    /// Returns the least or the greatest ready position, or `None` if there is none.
    fn ready_at(&mut self, end: End) -> Option<u32>
        ensures same { self.new ≡ self.old }
        ensures none { result ≡ None → IsNone (ready_set self.old) }
        ensures finished { result ≡ None → IsNone (running_set self.old)
            → steps.is_finished self.old ≡ true }
        ensures some { IfSome result (λ i. (i < state.size self.old)
            × (steps.may_start self.old i ≡ true) × IsAt end (ready_set self.old) i) }
    {
        self.progress.ready_at(self.policy, end)
    }

    /// Returns the least or the greatest running position, or `None` if there is none.
    fn running_at(&mut self, end: End) -> Option<u32>
        ensures same { self.new ≡ self.old }
        ensures none { result ≡ None → IsNone (running_set self.old) }
        ensures finished { result ≡ None → IsNone (ready_set self.old)
            → steps.is_finished self.old ≡ true }
        ensures some { IfSome result (λ i. (i < state.size self.old)
            × (state.is_running (state.phase_at self.old i) ≡ true)
            × IsAt end (running_set self.old) i) }
    {
        end.of(&mut self.progress.counts.running)
    }

    /// Returns the report of the least or the greatest running position, or else the start of that
    /// ready one.
    fn report_or_start(&mut self, end: End) -> Option<Step>
        ensures same { self.new ≡ self.old }
        ensures finished { result ≡ None → steps.is_finished self.old ≡ true }
        ensures next { IfSome result (IsNext (ReportsFirst (IsAt end)) self.old) }
    {
        if let Some(i) = self.running_at(end) {
            return Some(Step::Report(i));
        }
        match self.ready_at(end) {
            Some(i) => Some(Step::Start(i)),
            None => None,
        }
    }

    /// Returns the start of the least or the greatest ready position, or else the report of that
    /// running one.
    fn start_or_report(&mut self, end: End) -> Option<Step>
        ensures same { self.new ≡ self.old }
        ensures finished { result ≡ None → steps.is_finished self.old ≡ true }
        ensures next { IfSome result (IsNext (StartsFirst (IsAt end)) self.old) }
    {
        if let Some(i) = self.ready_at(end) {
            return Some(Step::Start(i));
        }
        match self.running_at(end) {
            Some(i) => Some(Step::Report(i)),
            None => None,
        }
    }

    /// Returns the next step in an order, or `None` if the run is finished.
    pub(crate) fn next_in(&mut self, order: Order) -> Option<Step>
        ensures same { self.new ≡ self.old }
        ensures finished { result ≡ None → steps.is_finished self.old ≡ true }
        ensures next { IfSome result (IsNext (AllowsOrder order) self.old) }
    {
        match order {
            Order::First => self.report_or_start(End::Least),
            Order::Last => self.report_or_start(End::Greatest),
            Order::Wide => self.start_or_report(End::Least),
        }
    }

    /// Returns whether no event may come any more: no request is running, and the run is stopped or
    /// each request was reported or will never start.
    pub fn is_finished(&self) -> bool
        ensures value { result ≡ steps.is_finished self.now }
        ensures idle { IsTrue result ↔ ((i : ℕ) → i < state.size self.now
            → (steps.may_start self.now i ≡ false)
            × (state.is_running (state.phase_at self.now i) ≡ false)) }
    {
        self.progress.is_finished()
    }

    /// Returns what has happened to a request.
    pub(crate) fn phase(&self, i: u32) -> &Phase
        requires { i < state.size self.now }
        ensures { result.now ≡ state.phase_at self.now i }
    {
        &self.progress.phases[i as usize]
    }

    /// Returns whether all members of the request's unit have succeeded.
    pub(crate) fn unit_succeeded(&self, i: u32) -> bool
        requires { i < state.size self.now }
        ensures { result ≡ steps.unit_succeeded self.now (unit_of self.now.plan_graph i) }
    {
        self.progress.counts.pending[self.graph.unit_of(i) as usize] == 0
    }

    /// What holds of every state that a run comes to. It changes nothing.
    pub(crate) fn reached(&self)
        ensures reached { IsReached self.now }
        ensures bare { self.now.requests ≡ [] }
    {
        let _ = &self.policy;
    }
}

//! What the outcome of a request changes: needs that are satisfied, units that fail.

ghost use Rattle.std.specs.Prelude.{◌≡◌, ◌<◌, ◌≤◌, ◌+◌, ◌-◌, ◌==◌, ◌&&◌, ◌||◌, ◌⊎◌, ℕ, true, not, length, slice_index_or, slice_set, count_by, All};
ghost use Rattle.odb_check.specs.PlanGraph as plan_graphs;
ghost use Rattle.odb_dense.specs.declared.worklist.Mark.TheVariants.{Unvisited};
ghost use Rattle.odb_dense.specs.Marks.{is_marked, is_visited};
ghost use Rattle.odb_sched.specs.declared.phase.Phase.TheVariants.{Unstarted, Running, Reported};
ghost use Rattle.odb_sched.specs.run.State as state;
ghost use Rattle.odb_sched.specs.invariants.Kept.{state_of};
ghost use Rattle.odb_sched.specs.invariants.Counts as counted;
ghost use Rattle.odb_sched.specs.invariants.Openings.{AreOpenings};
ghost use Rattle.odb_sched.specs.invariants.Propagation as propagation;
ghost use Rattle.odb_sched.specs.run.Steps.{stops};

use crate::counts::{Counts, Progress};
use crate::graph::Graph;
use crate::phase::Phase;
use crate::policy::{Mode, Policy};
use odb_doc::Outcome;

/// Counts one need of a request as satisfied. The last one makes the request ready, unless it has
/// started or its unit has failed.
fn satisfy(graph: &Graph, phases: &[Phase], i: u32, counts: &mut Counts)
    requires request { i < length graph.now.plan_graph.units }
    requires some { 0 < slice_index_or counts.old.unmet.items i 0 }
    requires ready { counted.HasReady graph.now.plan_graph phases.now counts.old }
    requires openings { AreOpenings graph.now.plan_graph phases.now counts.old.unmet.items
        counts.old.openings }
    ensures ready { counted.HasReady graph.now.plan_graph phases.now counts.new }
    ensures openings { AreOpenings graph.now.plan_graph phases.now counts.new.unmet.items
        counts.new.openings }
    ensures unmet { counts.new.unmet.items
        ≡ slice_set counts.old.unmet.items i (slice_index_or counts.old.unmet.items i 0 - 1) }
    ensures rest { counts.new ≡ record counts.old {
      unmet = counts.new.unmet;
      ready = counts.new.ready;
      openings = counts.new.openings;
    } }
{
    counts.openings.satisfy(graph, i, &counts.unmet);
    let at = i as usize;
    counts.unmet[at] -= 1;
    if counts.unmet[at] == 0
        && phases[at].is_unstarted()
        && !counts.failed.is_visited(graph.unit_of(i))
    {
        counts.ready.insert(i);
    }
}

/// Counts one need of the request of each entry of a list as satisfied.
fn satisfy_each(graph: &Graph, phases: &[Phase], list: &[u32], counts: &mut Counts)
    requires within { All (λ i. i < length graph.now.plan_graph.units) list.now }
    requires enough { (i : ℕ) → i < length graph.now.plan_graph.units
        → count_by (λ j. j == i) list.now ≤ slice_index_or counts.old.unmet.items i 0 }
    requires ready { counted.HasReady graph.now.plan_graph phases.now counts.old }
    requires openings { AreOpenings graph.now.plan_graph phases.now counts.old.unmet.items
        counts.old.openings }
    ensures ready { counted.HasReady graph.now.plan_graph phases.now counts.new }
    ensures openings { AreOpenings graph.now.plan_graph phases.now counts.new.unmet.items
        counts.new.openings }
    ensures fallen { (i : ℕ) → i < length graph.now.plan_graph.units
        → slice_index_or counts.new.unmet.items i 0 + count_by (λ j. j == i) list.now
        ≡ slice_index_or counts.old.unmet.items i 0 }
    ensures rest { counts.new ≡ record counts.old {
      unmet = counts.new.unmet;
      ready = counts.new.ready;
      openings = counts.new.openings;
    } }
{
    for i in list {
        satisfy(graph, phases, *i, counts);
    }
}

/// Counts the needs of a unit as satisfied, if all its members have succeeded.
fn satisfy_unit(graph: &Graph, phases: &[Phase], u: u32, counts: &mut Counts)
    requires unit { u < graph.now.plan_graph.unit_count }
    requires pending { slice_index_or counts.old.pending.items u 0
        ≡ counted.pending_in graph.now.plan_graph phases.now u }
    requires enough { (i : ℕ) → i < length graph.now.plan_graph.units
        → counted.satisfied_by_unit graph.now.plan_graph phases.now u i
        ≤ slice_index_or counts.old.unmet.items i 0 }
    requires ready { counted.HasReady graph.now.plan_graph phases.now counts.old }
    requires openings { AreOpenings graph.now.plan_graph phases.now counts.old.unmet.items
        counts.old.openings }
    ensures ready { counted.HasReady graph.now.plan_graph phases.now counts.new }
    ensures openings { AreOpenings graph.now.plan_graph phases.now counts.new.unmet.items
        counts.new.openings }
    ensures fallen { (i : ℕ) → i < length graph.now.plan_graph.units
        → slice_index_or counts.new.unmet.items i 0
        + counted.satisfied_by_unit graph.now.plan_graph phases.now u i
        ≡ slice_index_or counts.old.unmet.items i 0 }
    ensures rest { counts.new ≡ record counts.old {
      unmet = counts.new.unmet;
      ready = counts.new.ready;
      openings = counts.new.openings;
    } }
{
    graph.laws();
    if counts.pending[u as usize] == 0 {
        satisfy_each(graph, phases, graph.dependents_of_unit(u), counts);
    }
}

/// Counts a member of a unit as succeeded.
fn count_success(u: u32, counts: &mut Counts)
    requires unit { u < length counts.old.pending.items }
    requires some { 0 < slice_index_or counts.old.pending.items u 0 }
    ensures pending { counts.new.pending.items
        ≡ slice_set counts.old.pending.items u (slice_index_or counts.old.pending.items u 0 - 1) }
    ensures rest { counts.new ≡ record counts.old { pending = counts.new.pending } }
{
    counts.pending[u as usize] -= 1;
}

/// Marks each dependency on a request that has succeeded as satisfied, and each on its unit if it was the
/// last member of the unit to succeed. `phases[i]` already holds the outcome.
fn succeed(graph: &Graph, phases: &[Phase], i: u32, counts: &mut Counts)
    requires request { i < length graph.now.plan_graph.units }
    requires succeeded { state.has_succeeded (slice_index_or phases.now i Unstarted) ≡ true }
    requires counts { counted.AreCounts graph.now.plan_graph (slice_set phases.now i Running) counts.old }
    ensures { counted.AreCounts graph.now.plan_graph phases.now counts.new }
{
    graph.laws();
    counts.running.remove(i);
    let unit = graph.unit_of(i);
    count_success(unit, counts);
    satisfy_each(graph, phases, graph.dependents_of(i), counts);
    satisfy_unit(graph, phases, unit, counts);
}

/// Removes the members of a unit that has failed from the ready requests.
fn skip_members(graph: &Graph, phases: &[Phase], u: u32, counts: &mut Counts)
    requires unit { u < graph.now.plan_graph.unit_count }
    requires visited { is_visited (slice_index_or counts.old.failed u Unvisited) ≡ true }
    requires ready { counted.AreReady graph.now.plan_graph
        (λ i. counted.is_skipped graph.now.plan_graph counts.old.failed i && not (plan_graphs.unit_of graph.now.plan_graph i == u))
        phases.now counts.old }
    ensures ready { counted.HasReady graph.now.plan_graph phases.now counts.new }
    ensures rest { counts.new ≡ record counts.old { ready = counts.new.ready } }
{
    let members = graph.members(u);
    for i in members.start..members.end {
        counts.ready.remove(i);
    }
}

/// Marks the unit of each request of the list as failed.
fn mark_units(graph: &Graph, list: &[u32], counts: &mut Counts)
    requires units { length counts.old.failed ≡ graph.now.plan_graph.unit_count }
    requires within { All (λ i. i < length graph.now.plan_graph.units) list.now }
    ensures marks { propagation.HaveMarked counts.old.failed counts.new.failed }
    ensures marked { (k : ℕ) → k < length list.now
        → is_marked (slice_index_or counts.new.failed
        (plan_graphs.unit_of graph.now.plan_graph (slice_index_or list.now k 0)) Unvisited) ≡ true }
    ensures only { (v : ℕ) → is_marked (slice_index_or counts.new.failed v Unvisited) ≡ true
        → (is_marked (slice_index_or counts.old.failed v Unvisited) ≡ true)
        ⊎ ((k : ℕ) × (k < length list.now)
        × (plan_graphs.unit_of graph.now.plan_graph (slice_index_or list.now k 0) ≡ v)) }
    ensures rest { counts.new ≡ record counts.old { failed = counts.new.failed } }
{
    for i in list {
        counts.failed.put(graph.unit_of(*i));
    }
}

/// Puts each unit that depends on a unit on the worklist.
fn mark_dependents(graph: &Graph, u: u32, counts: &mut Counts)
    requires units { length counts.old.failed ≡ graph.now.plan_graph.unit_count }
    requires unit { u < graph.now.plan_graph.unit_count }
    ensures marks { propagation.HaveMarked counts.old.failed counts.new.failed }
    ensures marked { (w : ℕ) → propagation.NeedsUnit graph.now.plan_graph w u
        → is_marked (slice_index_or counts.new.failed w Unvisited) ≡ true }
    ensures only { (v : ℕ) → is_marked (slice_index_or counts.new.failed v Unvisited) ≡ true
        → (is_marked (slice_index_or counts.old.failed v Unvisited) ≡ true)
        ⊎ propagation.NeedsUnit graph.now.plan_graph v u }
    ensures rest { counts.new ≡ record counts.old { failed = counts.new.failed } }
{
    graph.laws();
    let members = graph.members(u);
    for r in members.start..members.end {
        mark_units(graph, graph.dependents_of(r), counts);
    }
    mark_units(graph, graph.dependents_of_unit(u), counts);
}

/// Takes units from the worklist, and puts those that depend on them on it, until it is empty.
fn propagate(graph: &Graph, phases: &[Phase], counts: &mut Counts)
    requires propagating { propagation.ArePropagating graph.now.plan_graph phases.now counts.old.failed }
    requires ready { counted.HasReady graph.now.plan_graph phases.now counts.old }
    ensures propagated { counted.ArePropagated graph.now.plan_graph phases.now counts.new.failed }
    ensures ready { counted.HasReady graph.now.plan_graph phases.now counts.new }
    ensures rest { counts.new
        ≡ record counts.old { failed = counts.new.failed; ready = counts.new.ready } }
{
    graph.laws();
    while let Some(u) = counts.failed.take() {
        skip_members(graph, phases, u, counts);
        mark_dependents(graph, u, counts);
    }
}

/// Handles a failed request: marks its unit as failed, and propagates the failure to every unit that
/// depends on it, directly or not. `phases[i]` already holds the outcome.
fn fail(graph: &Graph, phases: &[Phase], i: u32, counts: &mut Counts)
    requires request { i < length graph.now.plan_graph.units }
    requires failed { state.has_failed (slice_index_or phases.now i Unstarted) ≡ true }
    requires counts { counted.AreCounts graph.now.plan_graph (slice_set phases.now i Running) counts.old }
    ensures { counted.AreCounts graph.now.plan_graph phases.now counts.new }
{
    graph.laws();
    counts.running.remove(i);
    counts.failed.put(graph.unit_of(i));
    propagate(graph, phases, counts);
}

/// Returns whether the run was stopped before, or this report stops it.
fn is_stopped(stopped: bool, policy: Policy, phase: &Phase) -> bool
    ensures { result ≡ (stopped || (stops policy.mode && state.has_erred phase.now)) }
{
    stopped || (policy.mode == Mode::Stop && phase.has_erred())
}

/// Handles the report of a request. `phases[i]` already holds the outcome.
fn take_report(graph: &Graph, phases: &[Phase], i: u32, counts: &mut Counts)
    requires request { i < length graph.now.plan_graph.units }
    requires reported { state.is_reported (slice_index_or phases.now i Unstarted) ≡ true }
    requires counts { counted.AreCounts graph.now.plan_graph (slice_set phases.now i Running) counts.old }
    ensures { counted.AreCounts graph.now.plan_graph phases.now counts.new }
{
    if phases[i as usize].has_succeeded() {
        succeed(graph, phases, i, counts);
    } else {
        fail(graph, phases, i, counts);
    }
}

impl Progress {
    ghost use Rattle.odb_sched.specs.invariants.Kept.{IsCounted};

    /// Takes the outcome of a running request.
    pub(crate) fn report(&mut self, graph: &Graph, policy: Policy, i: u32, outcome: Outcome)
        requires request { i < length graph.now.plan_graph.units }
        requires running { state.is_running (slice_index_or self.old.phases.items i Unstarted) ≡ true }
        requires counts { IsCounted (state_of graph.now.plan_graph policy self.old.closed
            self.old.phases.items self.old.lanes.awaited.items) self.old }
        requires units { length self.old.lanes.awaited.items ≡ graph.now.plan_graph.unit_count }
        ensures phases { self.new.phases.items ≡ slice_set self.old.phases.items i (Reported outcome) }
        ensures counts { IsCounted (state_of graph.now.plan_graph policy self.new.closed
            self.new.phases.items self.new.lanes.awaited.items) self.new }
        ensures awaited { self.new.lanes.awaited.items ≡ state.awaited_after self.old.lanes.awaited.items
            (plan_graphs.unit_of graph.now.plan_graph i) }
        ensures closed { self.new.closed ≡ self.old.closed }
    {
        self.put(i, Phase::Reported(outcome));
        take_report(graph, &self.phases, i, &mut self.counts);
        self.lanes.take_report(graph.unit_of(i));
        self.stopped = is_stopped(self.stopped, policy, &self.phases[i as usize]);
    }
}

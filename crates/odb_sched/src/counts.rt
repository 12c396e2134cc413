//! The state of a run: the phase of each request, and the counts kept with it.

ghost use Rattle.std.specs.Prelude.{◌≡◌, ◌<◌, ◌+◌, ◌&&◌, ◌||◌, ◌==◌, ℕ, true, false, not, nat_lt, length, find, replicate, slice_index_or, slice_set, count_by, IfOk, IfSome, IsSome, None, All};
ghost use Rattle.odb_check.specs.PlanGraph as plan_graphs;
ghost use Rattle.odb_dense.specs.Lists.{ListsOnce};
ghost use Rattle.odb_sched.specs.declared.phase.Phase.TheVariants.{Unstarted};
ghost use Rattle.odb_sched.specs.invariants.Ends.{IsEndOf};
ghost use Rattle.odb_sched.specs.invariants.Counts as counted;
ghost use Rattle.odb_check.specs.PlanGraph.{IsNeed};
ghost use Rattle.odb_sched.specs.invariants.Kept.{first_of};
ghost use Rattle.odb_sched.specs.run.Steps.{satisfied_in};

use crate::graph::Graph;
use crate::lanes::Lanes;
use crate::openings::Openings;
use crate::order::End;
use crate::phase::Phase;
use crate::policy::Policy;
use odb_check::Need;
use odb_dense::{MinMaxSet, Worklist};
use std::alloc::{AllocError, Global};

/// What is counted of a run beside the phases of its requests, which are read while it changes.
#[derive(Drop)]
pub(crate) struct Counts {
    /// Of each request, how many of its needs are not satisfied.
    pub(crate) unmet: Vec<u32>,
    /// For each unit the number of its members that have not succeeded.
    pub(crate) pending: Vec<u32>,
    /// The units that have failed.
    pub(crate) failed: Worklist,
    /// The ready requests, without regard to the stop and the width.
    pub(crate) ready: MinMaxSet,
    /// The running requests.
    pub(crate) running: MinMaxSet,
    /// What is counted of the units, to find those that may begin.
    pub(crate) openings: Openings,
}

/// Returns for each request the number of its dependencies.
fn need_counts(alloc: Global, graph: &Graph) -> Result<Vec<u32>, AllocError>
    ensures { IfOk result (λ found. found.items ≡ counted.need_counts graph.now.plan_graph) }
{
    let mut counts = Vec::with_capacity(alloc, graph.len() as usize)?;
    for i in 0..graph.len() {
        counts.push(graph.needs(i).len() as u32)?;
    }
    Ok(counts)
}

/// Returns for each unit the number of its members.
fn member_counts(alloc: Global, graph: &Graph) -> Result<Vec<u32>, AllocError>
    ensures counts { IfOk result (λ found. found.items ≡ counted.member_counts graph.now.plan_graph) }
    ensures some { IfOk result (λ counts. All (λ count. 0 < count) counts.items) }
{
    let mut counts = Vec::with_capacity(alloc, graph.unit_count() as usize)?;
    for u in 0..graph.unit_count() {
        let members = graph.members(u);
        counts.push(members.end - members.start)?;
    }
    Ok(counts)
}

/// Returns the requests whose count is 0.
fn without_any(alloc: Global, len: u32, counts: &[u32]) -> Result<MinMaxSet, AllocError>
    requires { length counts.now ≡ len }
    ensures each { IfOk result (λ free. length free ≡ len) }
    ensures exact { IfOk result (λ free. (i : ℕ) → i < len
        → slice_index_or free i false ≡ (slice_index_or counts.now i 0 == 0)) }
{
    let mut free = MinMaxSet::new(alloc, len)?;
    for i in 0..len {
        if counts[i as usize] == 0 {
            free.insert(i);
        }
    }
    Ok(free)
}

impl Counts {
    /// Returns the counts before the first event of a run: no dependency is satisfied, and no
    /// request is running or has failed.
    ///
    /// # Errors
    ///
    /// If memory for the requests and the units cannot be allocated.
    pub(crate) fn new(alloc: Global, graph: &Graph) -> Result<Counts, AllocError>
        ensures { IfOk result (counted.AreCounts graph.now.plan_graph
            (replicate (length graph.now.plan_graph.units) Unstarted)) }
    {
        graph.laws();
        let unmet = need_counts(alloc, graph)?;
        Ok(Counts {
            ready: without_any(alloc, graph.len(), &unmet)?,
            unmet,
            pending: member_counts(alloc, graph)?,
            failed: Worklist::new(alloc, graph.unit_count())?,
            running: MinMaxSet::new(alloc, graph.len())?,
            openings: Openings::new(alloc, graph)?,
        })
    }
}

/// Returns the phases of so many requests that have not started.
fn all_unstarted(alloc: Global, count: u32) -> Result<Vec<Phase>, AllocError>
    ensures { IfOk result (λ phases. phases.items ≡ replicate count Unstarted) }
{
    let mut phases = Vec::with_capacity(alloc, count as usize)?;
    for _ in 0..count {
        phases.push(Phase::Unstarted)?;
    }
    Ok(phases)
}

/// How far a run has come: the phases of its requests, what is counted beside them, which units were
/// sent as one, and whether it is stopped.
#[derive(Drop)]
pub(crate) struct Progress {
    pub(crate) phases: Vec<Phase>,
    pub(crate) counts: Counts,
    pub(crate) lanes: Lanes,
    pub(crate) stopped: bool,
    /// Whether the caller has stopped it.
    pub(crate) closed: bool,
}

impl Progress {
    ghost use Rattle.odb_sched.specs.invariants.Kept.{IsCounted};

    /// Returns the counts before the first event.
    pub(crate) fn new(alloc: Global, graph: &Graph) -> Result<Progress, AllocError>
        ensures phases { IfOk result (λ progress. progress.phases.items
            ≡ replicate (length graph.now.plan_graph.units) Unstarted) }
        ensures counts { IfOk result (λ progress. (policy : Policy)
            → IsCounted (first_of graph.now.plan_graph policy) progress) }
        ensures awaited { IfOk result (λ progress. progress.lanes.awaited.items
            ≡ replicate graph.now.plan_graph.unit_count 0) }
        ensures going { IfOk result (λ progress. progress.closed ≡ false) }
    {
        graph.laws();
        Ok(Progress {
            phases: all_unstarted(alloc, graph.len())?,
            counts: Counts::new(alloc, graph)?,
            lanes: Lanes::new(alloc, graph.unit_count())?,
            stopped: false,
            closed: false,
        })
    }

    /// Writes the phase of a request.
    pub(crate) fn put(&mut self, i: u32, phase: Phase)
        requires { i < length self.old.phases.items }
        ensures phases { self.new.phases.items ≡ slice_set self.old.phases.items i phase }
        ensures rest { self.new ≡ record self.old { phases = self.new.phases } }
    {
        self.phases[i as usize] = phase;
    }

    /// Returns whether a dependency is satisfied.
    pub(crate) fn is_satisfied(&self, graph: &Graph, need: Need) -> bool
        requires counts { counted.AreCounts graph.now.plan_graph self.now.phases.items self.now.counts }
        requires known { IsNeed graph.now.plan_graph need }
        ensures { result ≡ satisfied_in graph.now.plan_graph self.now.phases.items need }
    {
        match need {
            Need::One(r) => self.phases[r as usize].has_succeeded(),
            Need::Group(u) => self.counts.pending[u as usize] == 0,
        }
    }

    /// Returns the first dependency of a request that is not satisfied.
    pub(crate) fn first_unmet(&self, graph: &Graph, i: u32) -> Option<Need>
        requires counts { counted.AreCounts graph.now.plan_graph self.now.phases.items self.now.counts }
        requires request { i < length graph.now.plan_graph.units }
        ensures { result
            ≡ find (λ need. not (satisfied_in graph.now.plan_graph self.now.phases.items need))
            (plan_graphs.needs_of graph.now.plan_graph i) }
    {
        if self.counts.unmet[i as usize] == 0 {
            return None;
        }
        let needs = graph.needs(i);
        for need in needs {
            if !self.is_satisfied(graph, *need) {
                return Some(*need);
            }
        }
        None
    }

    /// Stops the run.
    pub(crate) fn stop(&mut self)
        ensures { self.new ≡ record self.old { stopped = true; closed = true } }
    {
        self.stopped = true;
        self.closed = true;
    }

    /// Returns whether as many requests are running as the width allows, where a unit that was sent as one
    /// counts as one.
    pub(crate) fn is_full(&self, policy: Policy) -> bool
        ensures { result ≡ not (nat_lt (count_by (λ runs. runs) self.now.counts.running)
            (policy.width + self.now.lanes.spare)) }
    {
        self.counts.running.len() as u64 >= policy.width as u64 + self.lanes.spare as u64
    }

    /// Returns whether nothing may start now: the run is stopped, or as many requests are running
    /// as the width allows.
    pub(crate) fn is_closed(&self, policy: Policy) -> bool
        ensures { result ≡ (self.now.stopped
            || not (nat_lt (count_by (λ runs. runs) self.now.counts.running)
            (policy.width + self.now.lanes.spare))) }
    {
        self.stopped || self.is_full(policy)
    }

    /// Returns whether no request is running and none may start any more.
    pub(crate) fn is_finished(&self) -> bool
        ensures { result ≡ ((count_by (λ runs. runs) self.now.counts.running == 0)
            && (self.now.stopped || (count_by (λ ready. ready) self.now.counts.ready == 0))) }
    {
        self.counts.running.is_empty() && (self.stopped || self.counts.ready.is_empty())
    }

    /// Returns the ready positions.
    pub(crate) fn ready(&self, policy: Policy) -> &[u32]
        ensures { ListsOnce (length self.now.counts.ready)
            (λ i. slice_index_or self.now.counts.ready i false && not self.now.stopped
            && nat_lt (count_by (λ runs. runs) self.now.counts.running)
            (policy.width + self.now.lanes.spare)) result.now }
    {
        if self.is_closed(policy) {
            return &[];
        }
        self.counts.ready.as_slice()
    }

    /// Returns the least or the greatest ready position, or `None` if there is none.
    pub(crate) fn ready_at(&mut self, policy: Policy, end: End) -> Option<u32>
        ensures same { self.new ≡ self.old }
        ensures none { result ≡ None → (i : ℕ)
            → (slice_index_or self.old.counts.ready i false && not self.old.stopped
            && nat_lt (count_by (λ runs. runs) self.old.counts.running)
            (policy.width + self.old.lanes.spare)) ≡ false }
        ensures some { IfSome result (IsEndOf end self.old.counts.ready) }
        ensures allowed { IsSome result → (self.old.stopped ≡ false)
            × (nat_lt (count_by (λ runs. runs) self.old.counts.running)
            (policy.width + self.old.lanes.spare) ≡ true) }
    {
        if self.is_closed(policy) {
            return None;
        }
        end.of(&mut self.counts.ready)
    }

    /// Begins to keep which units are free, if it does not.
    pub(crate) fn ask(&mut self, graph: &Graph)
        requires { counted.AreCounts graph.now.plan_graph self.old.phases.items self.old.counts }
        ensures counts { counted.AreCounts graph.now.plan_graph self.new.phases.items self.new.counts }
        ensures asked { self.new.counts.openings.asked ≡ true }
        ensures rest { self.new ≡ record self.old {
          counts = record self.old.counts {
            openings = self.new.counts.openings;
          };
        } }
    {
        if !self.counts.openings.asked {
            self.counts.openings.ask(graph, &self.counts.unmet);
        }
    }
}

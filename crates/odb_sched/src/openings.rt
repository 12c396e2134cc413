//! Which units may begin: what is counted of each unit beside its requests, once a unit is asked for.

ghost use Rattle.std.specs.Prelude.{◌≡◌, ◌<◌, ◌-◌, ℕ, Bool, List, true, false, length, slice_index_or, slice_set, replicate, IfOk, IfSome, None};
ghost use Rattle.odb_check.specs.PlanGraph.{IsNeed, unit_of};
ghost use Rattle.odb_check.specs.PlanGraph as plan_graphs;
ghost use Rattle.odb_sched.specs.declared.phase.Phase.TheVariants.{Unstarted};
ghost use Rattle.odb_sched.specs.invariants.Openings.{is_passed, HaveUnits, AreWaiting, AreFree, AreOpenings, IsFirstFree};
ghost use Rattle.odb_sched.specs.invariants.Openings as openings;

use crate::graph::Graph;
use odb_check::Need;
use odb_dense::{BitSet, Worklist};
use std::alloc::{AllocError, Global};

/// What is counted of the units of a run, to find the first that may begin.
#[derive(Drop)]
pub(crate) struct Openings {
    /// Of each unit, whether one of its members has started.
    pub(crate) begun: Vec<bool>,
    /// Whether a unit was asked for. Until then the rest is not kept.
    pub(crate) asked: bool,
    /// Of each request, how many of its needs are on its own unit.
    pub(crate) inner: Vec<u32>,
    /// Of each unit, how many of its members have more open needs than those. If the unit has not begun, they
    /// wait for other units.
    pub(crate) waiting: Vec<u32>,
    /// The units without such members. One that has begun or failed may be missing.
    pub(crate) free: BitSet,
}

/// Returns the unit that a need is about.
pub(crate) fn unit_needed(graph: &Graph, need: Need) -> u32
    requires { IsNeed graph.now.plan_graph need }
    ensures { result ≡ plan_graphs.unit_needed (unit_of graph.now.plan_graph) need }
{
    match need {
        Need::One(r) => graph.unit_of(r),
        Need::Group(u) => u,
    }
}

/// Returns how many needs of a request are on its own unit.
fn inner_count(graph: &Graph, i: u32) -> u32
    requires { i < length graph.now.plan_graph.units }
    ensures { result ≡ openings.inner_count graph.now.plan_graph i }
{
    let u = graph.unit_of(i);
    let mut count = 0;
    for need in graph.needs(i) {
        if unit_needed(graph, *need) == u {
            count += 1;
        }
    }
    count
}

impl Openings {
    /// Returns the counts before the first event of a run, in which no unit was asked for.
    ///
    /// # Errors
    ///
    /// If memory for the requests and the units cannot be allocated.
    pub(crate) fn new(alloc: Global, graph: &Graph) -> Result<Openings, AllocError>
        ensures { IfOk result (λ t. (unmet : List ℕ) → AreOpenings graph.now.plan_graph
            (replicate (length graph.now.plan_graph.units) Unstarted) unmet t) }
    {
        let begun = vec![in alloc; false; graph.unit_count() as usize]?;
        let inner = vec![in alloc; 0_u32; graph.len() as usize]?;
        let waiting = vec![in alloc; 0_u32; graph.unit_count() as usize]?;
        Ok(Openings {
            begun,
            asked: false,
            inner,
            waiting,
            free: BitSet::new(alloc, graph.unit_count())?,
        })
    }

    /// Notes that a member of a unit has started.
    pub(crate) fn begin(&mut self, u: u32)
        requires { u < length self.old.begun.items }
        ensures begun { self.new.begun.items ≡ slice_set self.old.begun.items u true }
        ensures rest { self.new ≡ record self.old { begun = self.new.begun } }
    {
        self.begun[u as usize] = true;
    }

    /// Counts the members of each unit that have more open needs than those on the unit.
    fn count(&mut self, graph: &Graph, unmet: &[u32])
        requires each { length unmet.now ≡ length graph.now.plan_graph.units }
        requires entries { HaveUnits graph.now.plan_graph self.old }
        ensures waiting { AreWaiting graph.now.plan_graph unmet.now self.new }
        ensures entries { HaveUnits graph.now.plan_graph self.new }
        ensures rest { self.new ≡ record self.old { inner = self.new.inner; waiting = self.new.waiting } }
    {
        graph.laws();
        self.waiting.fill(0);
        for i in 0..graph.len() {
            let own = inner_count(graph, i);
            self.inner[i as usize] = own;
            if own < unmet[i as usize] {
                self.waiting[graph.unit_of(i) as usize] += 1;
            }
        }
    }

    /// Finds the units without such members.
    fn find_free(&mut self, graph: &Graph)
        requires { HaveUnits graph.now.plan_graph self.old }
        ensures free { (skipped : ℕ → Bool) → AreFree graph.now.plan_graph skipped self.new }
        ensures entries { HaveUnits graph.now.plan_graph self.new }
        ensures rest { self.new ≡ record self.old { free = self.new.free } }
    {
        for u in 0..graph.unit_count() {
            if self.waiting[u as usize] == 0 {
                self.free.insert(u);
            } else {
                self.free.remove(u);
            }
        }
    }

    /// Begins to keep which units are free.
    pub(crate) fn ask(&mut self, graph: &Graph, unmet: &[u32])
        requires each { length unmet.now ≡ length graph.now.plan_graph.units }
        requires entries { HaveUnits graph.now.plan_graph self.old }
        ensures asked { self.new.asked ≡ true }
        ensures waiting { AreWaiting graph.now.plan_graph unmet.now self.new }
        ensures free { (skipped : ℕ → Bool) → AreFree graph.now.plan_graph skipped self.new }
        ensures entries { HaveUnits graph.now.plan_graph self.new }
        ensures begun { self.new.begun ≡ self.old.begun }
    {
        self.count(graph, unmet);
        self.find_free(graph);
        self.asked = true;
    }

    /// Counts one member of a unit less. After the last one the unit is free.
    fn take_member(&mut self, graph: &Graph, u: u32)
        requires unit { u < graph.now.plan_graph.unit_count }
        requires entries { HaveUnits graph.now.plan_graph self.old }
        requires some { 0 < slice_index_or self.old.waiting.items u 0 }
        ensures waiting { self.new.waiting.items
            ≡ slice_set self.old.waiting.items u (slice_index_or self.old.waiting.items u 0 - 1) }
        ensures free { (skipped : ℕ → Bool) → AreFree graph.now.plan_graph skipped self.old
            → AreFree graph.now.plan_graph skipped self.new }
        ensures entries { HaveUnits graph.now.plan_graph self.new }
        ensures rest { self.new ≡ record self.old { waiting = self.new.waiting; free = self.new.free } }
    {
        let at = u as usize;
        self.waiting[at] -= 1;
        if self.waiting[at] == 0 {
            self.free.insert(u);
        }
    }

    /// Counts one need of a request as satisfied, of those that `unmet` still has.
    pub(crate) fn satisfy(&mut self, graph: &Graph, i: u32, unmet: &[u32])
        requires request { i < length graph.now.plan_graph.units }
        requires each { length unmet.now ≡ length graph.now.plan_graph.units }
        requires some { 0 < slice_index_or unmet.now i 0 }
        requires entries { HaveUnits graph.now.plan_graph self.old }
        requires waiting { self.old.asked ≡ true
            → AreWaiting graph.now.plan_graph unmet.now self.old }
        ensures waiting { self.new.asked ≡ true → AreWaiting graph.now.plan_graph
            (slice_set unmet.now i (slice_index_or unmet.now i 0 - 1)) self.new }
        ensures free { (skipped : ℕ → Bool) → AreFree graph.now.plan_graph skipped self.old
            → AreFree graph.now.plan_graph skipped self.new }
        ensures entries { HaveUnits graph.now.plan_graph self.new }
        ensures rest { self.new ≡ record self.old { waiting = self.new.waiting; free = self.new.free } }
    {
        graph.laws();
        if self.asked && unmet[i as usize] - 1 == self.inner[i as usize] {
            self.take_member(graph, graph.unit_of(i));
        }
    }

    /// Returns the first free unit that has not begun and has not failed. It removes those before it.
    pub(crate) fn first(&mut self, failed: &Worklist) -> Option<u32>
        requires begun { length self.old.begun.items ≡ length self.old.free }
        requires failed { length failed.now ≡ length self.old.free }
        ensures rest { self.new ≡ record self.old { free = self.new.free } }
        ensures each { length self.new.free ≡ length self.old.free }
        ensures sound { (u : ℕ) → slice_index_or self.new.free u false ≡ true
            → slice_index_or self.old.free u false ≡ true }
        ensures kept { (u : ℕ) → slice_index_or self.old.free u false ≡ true
            → is_passed self.old failed.now u ≡ false → slice_index_or self.new.free u false ≡ true }
        ensures none { result ≡ None → (u : ℕ) → slice_index_or self.old.free u false ≡ true
            → is_passed self.old failed.now u ≡ true }
        ensures some { IfSome result (IsFirstFree self.old failed.now) }
    {
        while let Some(u) = self.free.least() {
            if !self.begun[u as usize] && !failed.is_visited(u) {
                return Some(u);
            }
            self.free.remove(u);
        }
        None
    }
}

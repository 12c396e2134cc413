//! The numbers of a plan, and which requests depend on which.

ghost use Rattle.std.specs.Prelude.{◌≡◌, ℕ, ◌<◌, ◌≤◌, ◌+◌, ◌++◌, [], All, length, slice_index_or, IfOk, OnOk};
ghost use Rattle.odb_check.specs.Plans.{plan_graph};
ghost use Rattle.odb_check.specs.PlanGraph as plan_graphs;
ghost use Rattle.odb_check.specs.PlanGraph.{IsNeed, IsSpan};
ghost use Rattle.odb_sched.specs.run.State.{members_in};
ghost use Rattle.odb_sched.specs.invariants.Dependents.{AreDependents};
ghost use Rattle.odb_sched.specs.invariants.Dependents as needed;
ghost use Rattle.odb_sched.specs.invariants.Graphs.{AreSpans, need_pairs, all_pairs};

use odb_check::laws::every_plan;
use odb_check::{Need, Plan};
use odb_dense::Rows;
use std::alloc::{AllocError, Global};
use std::marker::Model;
use std::ops::Range;

/// The numbers of a plan, which borrow nothing of it: its units, what each request needs, and which
/// requests depend on each request and on each unit.
#[derive(Drop)]
pub struct Graph {
    /// The unit of each request.
    units: Vec<u32>,
    /// Where each unit begins and ends.
    members: Vec<(u32, u32)>,
    needs: Rows<Need>,
    /// The dependents of each request, and after all requests those of each unit.
    dependents: Rows<u32>,
}

impl Model for Graph {
    ghost use Rattle.std.specs.Coded.{codes};
    ghost use Rattle.odb_sched.specs.invariants.Dependents.{Numbers};
    ghost use Rattle.odb_sched.specs.invariants.Graphs.{numbers_of, IsGraph};

    ghost Value = { Numbers };

    ghost coded = { Prim.hlevel codes };

    ghost view = { numbers_of };

    ghost invariant = { IsGraph };
}

/// Returns the unit of each request.
fn units_of(alloc: Global, plan: &Plan<'_>) -> Result<Vec<u32>, AllocError>
    ensures { IfOk result (λ units. units.items ≡ (plan_graph plan.now).units) }
{
    let mut units = Vec::with_capacity(alloc, plan.len() as usize)?;
    for i in 0..plan.len() {
        units.push(plan.unit_of(i))?;
    }
    Ok(units)
}

/// Returns where each unit begins and ends.
fn members_of(alloc: Global, plan: &Plan<'_>) -> Result<Vec<(u32, u32)>, AllocError>
    ensures len { IfOk result (λ members. length members.items ≡ (plan_graph plan.now).unit_count) }
    ensures spans { IfOk result (λ members. AreSpans (plan_graph plan.now) members.items) }
{
    let mut members = Vec::with_capacity(alloc, plan.unit_count() as usize)?;
    for u in 0..plan.unit_count() {
        let span = plan.members(u);
        members.push((span.start, span.end))?;
    }
    Ok(members)
}

/// Returns the key of a dependency. The keys of units follow those of all requests.
fn key_of(plan: &Plan<'_>, need: Need) -> u32
    requires { IsNeed (plan_graph plan.now) need }
    ensures { result ≡ needed.key_of (plan_graph plan.now) need }
{
    every_plan(plan);
    match need {
        Need::One(r) => r,
        Need::Group(u) => plan.len() + u,
    }
}

/// Appends a pair for each dependency of a request: its key, and the request.
fn push_needs(plan: &Plan<'_>, i: u32, pairs: &mut Vec<(u32, u32)>) -> Result<(), AllocError>
    requires request { i < length (plan_graph plan.now).units }
    ensures { OnOk result (pairs.new.items ≡ pairs.old.items ++ need_pairs (plan_graph plan.now) i) }
{
    for need in plan.needs(i) {
        pairs.push((key_of(plan, *need), i))?;
    }
    Ok(())
}

/// Returns the pairs of all requests, in order.
fn pairs_of(alloc: Global, plan: &Plan<'_>) -> Result<Vec<(u32, u32)>, AllocError>
    ensures { IfOk result (λ pairs. pairs.items ≡ all_pairs (plan_graph plan.now)) }
{
    let mut pairs = Vec::new(alloc);
    for i in 0..plan.len() {
        push_needs(plan, i, &mut pairs)?;
    }
    Ok(pairs)
}

/// Returns the dependents of each request and of each unit, by their keys.
fn all_dependents(alloc: Global, plan: &Plan<'_>) -> Result<Rows<u32>, AllocError>
    ensures { IfOk result (AreDependents (plan_graph plan.now)) }
{
    every_plan(plan);
    let keys = plan.len() as usize + plan.unit_count() as usize;
    Rows::of(alloc, keys, &pairs_of(alloc, plan)?)
}

impl Graph {
    /// Returns the numbers of a plan.
    ///
    /// # Errors
    ///
    /// If memory for the requests, the units and the needs cannot be allocated.
    pub fn new(alloc: Global, plan: &Plan<'_>) -> Result<Graph, AllocError>
        ensures { IfOk result (λ graph. graph.plan_graph ≡ plan_graph plan.now) }
    {
        every_plan(plan);
        Ok(Graph {
            units: units_of(alloc, plan)?,
            members: members_of(alloc, plan)?,
            needs: plan.all_needs().copied(alloc)?,
            dependents: all_dependents(alloc, plan)?,
        })
    }

    /// What holds of the numbers of every plan. It changes nothing.
    pub fn laws(&self)
        ensures order { plan_graphs.IsPlan self.now.plan_graph }
        ensures dependents { AreDependents self.now.plan_graph self.now.dependents }
        ensures members { (u : ℕ) → u < self.now.plan_graph.unit_count
            → 0 < members_in self.now.plan_graph u }
    {
        let _ = &self.units;
    }

    /// Returns the number of requests: 10,000 at most.
    pub fn len(&self) -> u32
        ensures size { result ≡ length self.now.plan_graph.units }
        ensures small { result ≤ 10000 }
    {
        self.units.len() as u32
    }

    /// Returns the number of units.
    pub fn unit_count(&self) -> u32
        ensures { result ≡ self.now.plan_graph.unit_count }
    {
        self.members.len() as u32
    }

    /// Returns the unit of the request at a position.
    pub fn unit_of(&self, i: u32) -> u32
        requires { i < length self.now.plan_graph.units }
        ensures unit { result ≡ plan_graphs.unit_of self.now.plan_graph i }
        ensures counted { result < self.now.plan_graph.unit_count }
    {
        self.units[i as usize]
    }

    /// Returns the positions of a unit, which are adjacent.
    pub fn members(&self, u: u32) -> Range<u32>
        requires { u < self.now.plan_graph.unit_count }
        ensures span { IsSpan self.now.plan_graph u result.start result.end }
    {
        let (start, end) = self.members[u as usize];
        start..end
    }

    /// Returns what the request at a position needs.
    pub fn needs(&self, i: u32) -> &[Need]
        requires { i < length self.now.plan_graph.units }
        ensures needs { result.now ≡ plan_graphs.needs_of self.now.plan_graph i }
        ensures known { All (IsNeed self.now.plan_graph) result.now }
        ensures few { length result.now ≤ 4294967295 }
    {
        self.needs.row(i)
    }

    /// Returns the requests that depend on a request.
    pub fn dependents_of(&self, i: u32) -> &[u32]
        requires { i < length self.now.plan_graph.units }
        ensures row { result.now ≡ slice_index_or self.now.dependents i [] }
        ensures within { All (λ j. j < length self.now.plan_graph.units) result.now }
    {
        self.dependents.row(i)
    }

    /// Returns the requests that depend on a unit.
    pub fn dependents_of_unit(&self, u: u32) -> &[u32]
        requires { u < self.now.plan_graph.unit_count }
        ensures row { result.now ≡ slice_index_or self.now.dependents (length self.now.plan_graph.units + u) [] }
        ensures within { All (λ j. j < length self.now.plan_graph.units) result.now }
    {
        self.dependents.row(self.len() + u)
    }
}

//! What the start of a request changes, and that of a unit.

ghost use Rattle.std.specs.Prelude.{◌≡◌, ◌<◌, ◌+◌, true, false, not, length, slice_index_or, slice_set, count_by, find};
ghost use Rattle.odb_check.specs.PlanGraph.{unit_of};
ghost use Rattle.odb_sched.specs.declared.phase.Phase.TheVariants.{Unstarted, Running};
ghost use Rattle.odb_sched.specs.declared.policy.Mode.{Mode};
ghost use Rattle.odb_sched.specs.invariants.Counts.{AreCounts};
ghost use Rattle.odb_sched.specs.invariants.Lanes.{AreLanes};
ghost use Rattle.odb_sched.specs.run.State.{is_unstarted, is_running, members_in, running_members};
ghost use Rattle.odb_sched.specs.run.Steps.{satisfied_in, stopped_in};
ghost use Rattle.odb_sched.specs.run.Units.{has_begun_in, outer_needs, outer_needs_at};

use crate::counts::Progress;
use crate::graph::Graph;
use crate::openings::unit_needed;
use crate::phase::Phase;
use odb_check::Need;

impl Progress {
    /// Returns the first need of a member of a unit on another unit that is not satisfied.
    fn first_outer_at(&self, graph: &Graph, u: u32, i: u32) -> Option<Need>
        requires request { i < length graph.now.plan_graph.units }
        requires member { unit_of graph.now.plan_graph i ≡ u }
        requires counts { AreCounts graph.now.plan_graph self.now.phases.items self.now.counts }
        ensures { result ≡ find (λ need. not (satisfied_in graph.now.plan_graph self.now.phases.items need))
            (outer_needs_at graph.now.plan_graph u i) }
    {
        let needs = graph.needs(i);
        for need in needs {
            if unit_needed(graph, *need) != u && !self.is_satisfied(graph, *need) {
                return Some(*need);
            }
        }
        None
    }

    /// Returns the first need of a unit on another unit that is not satisfied.
    pub(crate) fn first_outer(&self, graph: &Graph, u: u32) -> Option<Need>
        requires unit { u < graph.now.plan_graph.unit_count }
        requires counts { AreCounts graph.now.plan_graph self.now.phases.items self.now.counts }
        ensures { result ≡ find (λ need. not (satisfied_in graph.now.plan_graph self.now.phases.items need))
            (outer_needs graph.now.plan_graph u) }
    {
        let members = graph.members(u);
        for i in members.start..members.end {
            if let Some(need) = self.first_outer_at(graph, u, i) {
                return Some(need);
            }
        }
        None
    }

    /// Notes that a request has started.
    pub(crate) fn begin(&mut self, graph: &Graph, i: u32)
        requires request { i < length graph.now.plan_graph.units }
        requires fresh { is_unstarted (slice_index_or self.old.phases.items i Unstarted) ≡ true }
        requires counts { AreCounts graph.now.plan_graph self.old.phases.items self.old.counts }
        ensures phases { self.new.phases.items ≡ slice_set self.old.phases.items i Running }
        ensures counts { AreCounts graph.now.plan_graph self.new.phases.items self.new.counts }
        ensures running { count_by is_running self.new.phases.items
            ≡ count_by is_running self.old.phases.items + 1 }
        ensures stopped { (mode : Mode) → stopped_in mode self.new.phases.items
            ≡ stopped_in mode self.old.phases.items }
        ensures rest { self.new ≡ record self.old {
          phases = self.new.phases;
          counts = self.new.counts;
        } }
    {
        graph.laws();
        self.counts.ready.remove(i);
        self.counts.running.insert(i);
        self.counts.openings.begin(graph.unit_of(i));
        self.put(i, Phase::Running);
    }

    /// Notes that a unit was sent as one: all its members have started.
    pub(crate) fn begin_unit(&mut self, graph: &Graph, u: u32)
        requires unit { u < graph.now.plan_graph.unit_count }
        requires fresh { has_begun_in graph.now.plan_graph self.old.phases.items u ≡ false }
        requires counts { AreCounts graph.now.plan_graph self.old.phases.items self.old.counts }
        requires units { length self.old.lanes.awaited.items ≡ graph.now.plan_graph.unit_count }
        requires lanes { AreLanes self.old.lanes.awaited.items self.old.lanes }
        requires apart { slice_index_or self.old.lanes.awaited.items u 0 ≡ 0 }
        ensures phases { self.new.phases.items
            ≡ running_members graph.now.plan_graph self.old.phases.items u }
        ensures counts { AreCounts graph.now.plan_graph self.new.phases.items self.new.counts }
        ensures awaited { self.new.lanes.awaited.items ≡ slice_set self.old.lanes.awaited.items u
            (members_in graph.now.plan_graph u) }
        ensures lanes { AreLanes self.new.lanes.awaited.items self.new.lanes }
        ensures some { 0 < members_in graph.now.plan_graph u }
        ensures running { count_by is_running self.new.phases.items
            ≡ count_by is_running self.old.phases.items + members_in graph.now.plan_graph u }
        ensures stopped { (mode : Mode) → stopped_in mode self.new.phases.items
            ≡ stopped_in mode self.old.phases.items }
        ensures rest { self.new ≡ record self.old {
          phases = self.new.phases;
          counts = self.new.counts;
          lanes = self.new.lanes;
        } }
    {
        graph.laws();
        let members = graph.members(u);
        for i in members.start..members.end {
            self.begin(graph, i);
        }
        self.lanes.send(u, members.end - members.start);
    }
}

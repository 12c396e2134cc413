//! Runs of whole units: which unit may begin, and units that are sent as one.

ghost use Rattle.std.specs.Prelude.{◌≡◌, ◌≢◌, ◌<◌, ◌≤◌, ◌↔◌, true, None, IsTrue, IsOk, IfErr, IfSome, OnOk, OnErr};
ghost use Rattle.odb_check.specs.Firsts.{first_below};
ghost use Rattle.odb_check.specs.PlanGraph as plan_graphs;
ghost use Rattle.odb_check.specs.PlanGraph.{IsSpan};
ghost use Rattle.odb_sched.specs.declared.refusal.StartRefusal.TheVariants.{WidthReached};
ghost use Rattle.odb_sched.specs.run.State as state;
ghost use Rattle.odb_sched.specs.run.Whole.{AreWhole};
ghost use Rattle.odb_sched.specs.run.Units.{FirstNeedsNothing, HasNextUnit, IsUnitCause, UnitsGoOn, may_begin};

use crate::owned::OwnedRun;
use crate::refusal::StartRefusal;
use std::ops::Range;

impl OwnedRun {
    /// Returns the number of units: groups, and requests without a group.
    pub fn unit_count(&self) -> u32
        ensures { result ≡ self.now.plan_graph.unit_count }
    {
        self.graph.unit_count()
    }

    /// Returns the unit of request `i`, counted from 0.
    pub fn unit_of(&self, i: u32) -> u32
        requires { i < state.size self.now }
        ensures unit { result ≡ plan_graphs.unit_of self.now.plan_graph i }
        ensures counted { result < self.now.plan_graph.unit_count }
    {
        self.graph.unit_of(i)
    }

    /// Returns the positions of unit `u`, which are adjacent.
    pub fn members(&self, u: u32) -> Range<u32>
        requires { u < self.now.plan_graph.unit_count }
        ensures span { IsSpan self.now.plan_graph u result.start result.end }
    {
        self.graph.members(u)
    }

    /// Returns the first unit that may begin, or `None` if there is none now. A unit may begin if none of
    /// its members has started, the unit has not failed, what its members need of other units has
    /// succeeded, the run is not stopped, and fewer requests are running than the width allows. Then
    /// [`OwnedRun::start_unit`] may start it as one.
    ///
    /// All calls of a run together cost O(requests + dependencies). A run that is never asked counts no units.
    pub fn next_unit(&mut self) -> Option<u32>
        ensures same { self.new ≡ self.old }
        ensures next { result ≡ first_below self.old.plan_graph.unit_count (may_begin self.old) }
        ensures within { IfSome result (λ u. u < self.old.plan_graph.unit_count) }
    {
        self.progress.ask(&self.graph);
        if self.progress.is_closed(self.policy) {
            return None;
        }
        self.progress
            .counts
            .openings
            .first(&self.progress.counts.failed)
    }

    /// Returns the first cause why a unit may not be sent as one.
    fn unit_refusal(&self, u: u32) -> Option<StartRefusal>
        requires { u < self.now.plan_graph.unit_count }
        ensures cause { IfSome result (IsUnitCause self.now u) }
        ensures none { result ≡ None → may_begin self.now u ≡ true }
    {
        if self.progress.counts.openings.begun[u as usize] {
            return Some(StartRefusal::AlreadyStarted);
        }
        if self.progress.stopped {
            return Some(StartRefusal::Stopped);
        }
        if self.progress.counts.failed.is_visited(u) {
            return Some(StartRefusal::UnitFailed);
        }
        if let Some(need) = self.progress.first_outer(&self.graph, u) {
            return Some(StartRefusal::Waiting(need));
        }
        if self.progress.is_full(self.policy) {
            return Some(StartRefusal::WidthReached);
        }
        None
    }

    /// Starts all members of unit `u` together, for a caller that sends the group to a service as one. They
    /// are reported one by one, in any order, and until the last of them the unit counts as one in the
    /// width.
    ///
    /// Costs O(members and their dependencies).
    ///
    /// # Errors
    ///
    /// The first of the causes S1 to S5 that applies to the unit: a member has started before, the run is
    /// stopped, the unit has failed, a need of a member on another unit is not satisfied, or the width
    /// limit is reached. The run is unchanged.
    pub fn start_unit(&mut self, u: u32) -> Result<(), StartRefusal>
        requires { u < self.old.plan_graph.unit_count }
        ensures ok { OnOk result (self.new ≡ state.started_unit self.old u) }
        ensures allowed { IsOk result ↔ IsTrue (may_begin self.old u) }
        ensures cause { IfErr result (IsUnitCause self.old u) }
        ensures err { OnErr result (self.new ≡ self.old) }
        ensures free { 10000 ≤ self.old.policy.width
            → IfErr result (λ cause. cause ≢ WidthReached) }
    {
        self.graph.laws();
        if let Some(cause) = self.unit_refusal(u) {
            return Err(cause);
        }
        self.progress.begin_unit(&self.graph, u);
        Ok(())
    }

    /// What holds of the units in every state that a run comes to, the first three as
    /// [`crate::laws::every_unit`] states it of lists of events. A unit that is sent as one takes one place of
    /// the width, and its members run until they report, whatever happens. It changes nothing.
    pub fn unit_laws(&self)
        ensures first { FirstNeedsNothing self.now }
        ensures goes_on { UnitsGoOn self.now }
        ensures next { HasNextUnit self.now }
        ensures whole { AreWhole self.now }
    {
        self.reached();
        self.graph.laws();
    }
}

//! Live runs of whole units, and stops.

ghost use Rattle.std.specs.Prelude.{◌≡◌, ◌<◌, ◌↔◌, IfErr, IfSome, IsOk, IsTrue, OnErr, OnOk};
ghost use Rattle.odb_check.specs.Firsts.{first_below};
ghost use Rattle.odb_sched.specs.run.State as state;
ghost use Rattle.odb_sched.specs.run.Units.{IsUnitCause, may_begin};
ghost use Rattle.odb_live.specs.Live as live;

use crate::run::LiveRun;
use odb_sched::StartRefusal;

impl LiveRun {
    /// Returns the first unit that may begin, or `None` if there is none now. A unit may begin if none of
    /// its members has started, it has not failed, what its members need of other units has succeeded,
    /// the run is not stopped, and fewer requests are running than the width allows.
    ///
    /// All calls of a run together cost O(requests + dependencies).
    pub fn next_unit(&mut self) -> Option<u32>
        ensures same { self.new ≡ self.old }
        ensures next { result
            ≡ first_below self.old.run.plan_graph.unit_count (may_begin self.old.run) }
        ensures within { IfSome result (λ u. u < self.old.run.plan_graph.unit_count) }
    {
        self.run.next_unit()
    }

    /// Starts all members of unit `u` together, for a caller that sends the group to a service as one. They
    /// are reported one by one, in any order, and until the last of them the unit counts as one in the
    /// width.
    ///
    /// # Errors
    ///
    /// The first of the causes S1 to S5 that applies to the unit: a member has started before, the run is
    /// stopped, the unit has failed, a need of a member on another unit is not satisfied, or the width
    /// limit is reached. The run is unchanged.
    pub fn start_unit(&mut self, u: u32) -> Result<(), StartRefusal>
        requires { u < self.old.run.plan_graph.unit_count }
        ensures ok { OnOk result (self.new
            ≡ live.with_run self.old (state.started_unit self.old.run u)) }
        ensures allowed { IsOk result ↔ IsTrue (may_begin self.old.run u) }
        ensures cause { IfErr result (IsUnitCause self.old.run u) }
        ensures err { OnErr result (self.new ≡ self.old) }
    {
        self.run.start_unit(u)
    }

    /// Stops the run, in each mode: from now on no request starts (S2). What is running is reported as
    /// before, and what has not started is answered 424: then [`LiveRun::response`] has the response of a
    /// finished run whose events alone would not finish it.
    pub fn stop(&mut self)
        ensures { self.new ≡ live.with_run self.old (state.stopped self.old.run) }
    {
        self.run.stop();
    }
}

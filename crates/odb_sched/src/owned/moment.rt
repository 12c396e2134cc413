//! What is said of one request at a moment of a run.

ghost use Rattle.std.specs.Prelude.{◌≡◌, ◌<◌, ◌||◌, true};
ghost use Rattle.odb_check.specs.PlanGraph.{unit_of};
ghost use Rattle.odb_sched.specs.run.State as state;
ghost use Rattle.odb_sched.specs.run.States as states;
ghost use Rattle.odb_sched.specs.run.Steps as steps;

use crate::owned::OwnedRun;
use crate::phase::Phase;
use crate::states::RequestState;

/// Returns the state of a request that has not started: by whether it may start now, and whether it never
/// will.
fn unstarted_state(ready: bool, never: bool) -> RequestState
    ensures { result ≡ states.unstarted_state ready never }
{
    if ready {
        RequestState::Ready
    } else if never {
        RequestState::Skipped
    } else {
        RequestState::Waiting
    }
}

impl OwnedRun {
    /// Returns whether request `i`, which has not started, never starts any more.
    fn is_skipped(&self, i: u32) -> bool
        requires { i < state.size self.now }
        ensures { result ≡ (steps.is_stopped self.now
            || steps.unit_failed self.now (unit_of self.now.plan_graph i)) }
    {
        self.progress.stopped || self.unit_failed(i)
    }

    /// Returns whether each dependency of request `i` is satisfied.
    fn is_free(&self, i: u32) -> bool
        requires { i < state.size self.now }
        ensures { result ≡ steps.all_satisfied self.now i }
    {
        self.progress.counts.unmet[i as usize] == 0
    }

    /// Returns whether the start of request `i`, which has not started, may come now.
    fn is_ready(&self, i: u32) -> bool
        requires request { i < state.size self.now }
        requires unstarted { state.is_unstarted (state.phase_at self.now i) ≡ true }
        ensures { result ≡ steps.may_start self.now i }
    {
        !self.is_skipped(i) && self.is_free(i) && !self.progress.is_full(self.policy)
    }

    /// Returns what has become of request `i`, counted from 0, and whether its start may come now. Costs
    /// constant time.
    pub fn state(&self, i: u32) -> RequestState
        requires { i < state.size self.now }
        ensures { result ≡ states.request_state self.now i }
    {
        match self.phase(i) {
            Phase::Unstarted => unstarted_state(self.is_ready(i), self.is_skipped(i)),
            Phase::Running => RequestState::Running,
            Phase::Reported(outcome) => RequestState::Reported(outcome.status),
        }
    }
}

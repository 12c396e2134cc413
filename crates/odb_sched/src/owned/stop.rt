//! Stops of a run by its caller.

ghost use Rattle.std.specs.Prelude.{◌≡◌};
ghost use Rattle.odb_sched.specs.run.State as state;

use crate::owned::OwnedRun;

impl OwnedRun {
    /// Stops the run, in each mode: from now on no request starts (S2). What is running is reported as
    /// before, and what has not started is answered 424.
    pub fn stop(&mut self)
        ensures { self.new ≡ state.stopped self.old }
    {
        self.progress.stop();
    }

    /// Returns whether the caller has stopped the run.
    pub fn is_closed(&self) -> bool
        ensures { result ≡ self.now.closed }
    {
        self.progress.closed
    }
}

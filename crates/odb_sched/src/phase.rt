//! What has happened to a request, and what its status means.

ghost use Rattle.std.specs.Prelude.{◌≡◌};

use odb_doc::Outcome;
use odb_doc::status::{is_error, is_success};

/// What has happened to a request in a run.
#[derive(Drop)]
pub enum Phase {
    Unstarted,
    Running,
    Reported(Outcome),
}

impl Phase {
    ghost use Rattle.odb_sched.specs.run.State as state;

    pub(crate) fn is_unstarted(&self) -> bool
        ensures { result ≡ state.is_unstarted self.now }
    {
        matches!(self, Phase::Unstarted)
    }

    pub(crate) fn is_running(&self) -> bool
        ensures { result ≡ state.is_running self.now }
    {
        matches!(self, Phase::Running)
    }

    /// Returns whether a status from 200 to 299 was reported.
    pub(crate) fn has_succeeded(&self) -> bool
        ensures { result ≡ state.has_succeeded self.now }
    {
        match self {
            Phase::Reported(outcome) => is_success(outcome.status),
            _ => false,
        }
    }

    /// Returns whether a status from 400 to 599 was reported.
    pub(crate) fn has_erred(&self) -> bool
        ensures { result ≡ state.has_erred self.now }
    {
        match self {
            Phase::Reported(outcome) => is_error(outcome.status),
            _ => false,
        }
    }
}

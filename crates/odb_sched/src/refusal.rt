//! Why an event may not come, with its code and its name.

ghost use Rattle.std.specs.Prelude.{◌≡◌};
ghost use Rattle.odb_sched.specs.run.Refusals.{run_row};
ghost use Rattle.odb_sched.specs.declared.refusal.RunRefusal.TheVariants.{OutOfMemory};

use odb_check::Need;
use odb_doc::{Fault, Place, Refusal};
use std::alloc::AllocError;
use thiserror::Error;

/// Why a request may not start.
#[derive(Clone, Copy, Debug, PartialEq, Eq, Error)]
pub enum StartRefusal {
    /// S1: it was started before.
    #[error("the request has started before")]
    AlreadyStarted,
    /// S2: the run is stopped, by an error or by its caller.
    #[error("the run is stopped")]
    Stopped,
    /// S3: a request of its unit did not succeed, or depends on something of another unit that
    /// failed.
    #[error("the unit of the request has failed")]
    UnitFailed,
    /// S4: this is the first of its needs that is not satisfied.
    #[error("the request waits for {0:?}")]
    Waiting(Need),
    /// S5: as many requests are running as the width allows.
    #[error("the width limit is reached")]
    WidthReached,
}

/// Why an outcome is not accepted.
#[derive(Clone, Copy, Debug, PartialEq, Eq, Error)]
pub enum ReportRefusal {
    /// P1: the request is not running.
    #[error("the request is not running")]
    NotRunning,
    /// P2: the status is not from 200 to 599.
    #[error("the status is not from 200 to 599")]
    BadStatus,
}

/// Why a list of events is not a run.
#[derive(Clone, Copy, Debug, PartialEq, Eq, Error)]
pub enum RunRefusal {
    /// The start at this index of the list may not come.
    #[error("event {at}: {cause}")]
    Start { at: usize, cause: StartRefusal },
    /// The report at this index of the list may not come.
    #[error("event {at}: {cause}")]
    Report { at: usize, cause: ReportRefusal },
    /// An allocation failed. That says nothing about the events.
    #[error("out of memory")]
    OutOfMemory,
}

impl StartRefusal {
    ghost use Rattle.odb_sched.specs.run.Refusals.{start_row};

    /// Returns the code, from `S1` to `S5`, and the name, such as `Waiting`.
    fn row(&self) -> (&'static str, &'static str)
        ensures code { result.0.now ≡ (start_row self.now).0 }
        ensures name { result.1.now ≡ (start_row self.now).1 }
    {
        match self {
            StartRefusal::AlreadyStarted => ("S1", "AlreadyStarted"),
            StartRefusal::Stopped => ("S2", "Stopped"),
            StartRefusal::UnitFailed => ("S3", "UnitFailed"),
            StartRefusal::Waiting(_) => ("S4", "Waiting"),
            StartRefusal::WidthReached => ("S5", "WidthReached"),
        }
    }

    /// Returns the code, from `S1` to `S5`.
    pub fn code(&self) -> &'static str
        ensures { result.now ≡ (start_row self.now).0 }
    {
        self.row().0
    }

    /// Returns the name, such as `Waiting`.
    pub fn name(&self) -> &'static str
        ensures { result.now ≡ (start_row self.now).1 }
    {
        self.row().1
    }
}

impl ReportRefusal {
    ghost use Rattle.odb_sched.specs.run.Refusals.{report_row};

    /// Returns the code, `P1` or `P2`, and the name, such as `NotRunning`.
    fn row(&self) -> (&'static str, &'static str)
        ensures code { result.0.now ≡ (report_row self.now).0 }
        ensures name { result.1.now ≡ (report_row self.now).1 }
    {
        match self {
            ReportRefusal::NotRunning => ("P1", "NotRunning"),
            ReportRefusal::BadStatus => ("P2", "BadStatus"),
        }
    }

    /// Returns the code, `P1` or `P2`.
    pub fn code(&self) -> &'static str
        ensures { result.now ≡ (report_row self.now).0 }
    {
        self.row().0
    }

    /// Returns the name, such as `NotRunning`.
    pub fn name(&self) -> &'static str
        ensures { result.now ≡ (report_row self.now).1 }
    {
        self.row().1
    }
}

impl Fault for RunRefusal {
    ghost row = { run_row };

    fn refusal(&self) -> Option<Refusal> {
        let (row, at) = match self {
            RunRefusal::Start { at, cause } => (cause.row(), *at),
            RunRefusal::Report { at, cause } => (cause.row(), *at),
            RunRefusal::OutOfMemory => return None,
        };
        Some(Refusal::new(row, Place::Event(at)))
    }
}

impl From<AllocError> for RunRefusal {
    ghost from_gives = { λ _ refusal. refusal ≡ OutOfMemory };

    fn from(_error: AllocError) -> Self {
        RunRefusal::OutOfMemory
    }
}

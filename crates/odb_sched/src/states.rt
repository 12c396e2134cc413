//! What is said of a request at one moment of a run.

/// What has become of a request, and whether its start may come now.
#[derive(Clone, Copy, Debug, PartialEq, Eq)]
pub enum RequestState {
    /// It may not start yet: a dependency is not satisfied, or the width limit is reached.
    Waiting,
    /// It has not started, and its start may come now.
    Ready,
    /// It was started, and has not reported.
    Running,
    /// It has reported this status.
    Reported(u16),
    /// It never starts any more: its unit has failed, or the run is stopped.
    Skipped,
}

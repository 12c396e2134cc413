//! Which runs the statuses of responses are compared with.

/// Which runs answer the statuses that [`crate::check_statuses`] accepts (OData JSON Format 4.01, section 19.1).
#[derive(Clone, Copy, Debug, PartialEq, Eq)]
pub enum Strictness {
    /// Runs whose requests start one by one.
    Requests,
    /// Runs that may also send a group as one, so that its requests start together.
    Units,
}

//! What a request of a finished run is answered.

ghost use Rattle.std.specs.Prelude.{◌≡◌};

use odb_doc::Outcome;
use odb_doc::status::FAILED_DEPENDENCY;

/// The answer to a request of a finished run (OData JSON Format 4.01, section 19.5).
#[derive(Clone, Copy, Debug)]
pub enum Answer<'a> {
    /// The outcome that was reported.
    Reported(&'a Outcome),
    /// It did not start, or it reported a success that has to be undone, since its unit did not
    /// succeed.
    FailedDependency,
}

impl Answer<'_> {
    ghost use Rattle.odb_sched.specs.run.Answers.{shown, status_of};

    /// Returns the HTTP status, which is 424 for a failed dependency. That of an answer of a finished
    /// run is from 200 to 599 ([`crate::Done::answer`]).
    pub fn status(&self) -> u16
        ensures { result ≡ status_of (shown self.now) }
    {
        match self {
            Answer::Reported(outcome) => outcome.status,
            Answer::FailedDependency => FAILED_DEPENDENCY,
        }
    }
}

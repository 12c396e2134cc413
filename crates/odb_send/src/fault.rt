//! Why the rest of a batch cannot be made.

ghost use Rattle.odb_send.specs.Faults.{rule_row};

use odb_doc::{Place, Refusal, Rule, RuleFault};
use thiserror::Error;

/// A rule that a batch breaks if its rest cannot be made.
#[derive(Clone, Copy, Debug, PartialEq, Eq, Error)]
pub enum RestRule {
    /// F90: the request is in the rest, its URL refers to a request that is not, and no Location is recorded for
    /// that one which makes a URL for the rest.
    #[error("no `Location` is recorded for the request that its URL refers to")]
    NoLocation,
    /// F91: the request is in the rest, its `If-Match` or `If-None-Match` is `$` and the id of an earlier request that is
    /// not, and no ETag is recorded for that one.
    #[error("no `ETag` is recorded for the request that its condition refers to")]
    NoETag,
}

/// Why the rest of a batch cannot be made: the request at a position breaks a rule.
pub type RestFault = RuleFault<RestRule>;

impl Rule for RestRule {
    ghost prints = { rule_row };

    fn refusal(self, at: usize) -> Refusal {
        match self {
            RestRule::NoLocation => Refusal::new(("F90", "NoLocation"), Place::Request(at)),
            RestRule::NoETag => Refusal::new(("F91", "NoETag"), Place::Request(at)),
        }
    }
}

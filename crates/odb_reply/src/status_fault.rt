//! The rules by which some finished run answers the statuses of responses, F76 to F78, and where one is broken.

ghost use Rattle.odb_reply.specs.StatusFaults.{status_rule_row};

use odb_doc::{Place, Refusal, Rule, RuleFault};
use thiserror::Error;

/// A rule that statuses break if no finished run answers them (OData JSON Format 4.01, sections 19.1 and 19.5; OData
/// Protocol 4.01, section 11.7).
#[derive(Clone, Copy, Debug, PartialEq, Eq, Error)]
pub enum StatusRule {
    /// F76: the status is not one of 200 to 599.
    #[error("the status of the response is not from 200 to 599")]
    NotFinal,
    /// F77: the response is a success, and another member of the group of its request has none.
    #[error("the response is a success, though another request of its group has none")]
    PartialGroup,
    /// F78: the response is not 424, and its request cannot have started: a dependency on another unit is not answered
    /// 200 to 299; or one on its own unit cannot have reported a success, as it has not started, or as it is answered a
    /// failure of its own.
    #[error("the response is not 424, though the request cannot have started")]
    NotStarted,
}

/// Why no finished run answers these statuses: the status of the request at a position breaks a rule.
pub type StatusFault = RuleFault<StatusRule>;

impl Rule for StatusRule {
    ghost prints = { status_rule_row };

    fn refusal(self, at: usize) -> Refusal {
        let label = match self {
            StatusRule::NotFinal => ("F76", "NotFinal"),
            StatusRule::PartialGroup => ("F77", "PartialGroup"),
            StatusRule::NotStarted => ("F78", "NotStarted"),
        };
        Refusal::new(label, Place::Request(at))
    }
}

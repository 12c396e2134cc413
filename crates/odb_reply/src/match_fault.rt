//! The rules by which responses fit a batch, F71 to F75, and where one is broken.

ghost use Rattle.odb_reply.specs.MatchFaults.{rule_row};

use odb_doc::{Place, Refusal, Rule, RuleFault};
use thiserror::Error;

/// A rule that responses break if they do not fit a batch (OData JSON Format 4.01, section 19.5).
#[derive(Clone, Copy, Debug, PartialEq, Eq, Error)]
pub enum MatchRule {
    /// F71: the id of the response is not an id of the batch.
    #[error("the `id` of the response is not an id of the batch")]
    UnknownResponse,
    /// F72: an earlier response has the same id.
    #[error("an earlier response has the same `id`")]
    ResponseTwice,
    /// F73: no response has the id of the request.
    #[error("no response has the `id` of the request")]
    ResponseMissing,
    /// F74: the response has another atomicity group than the request.
    #[error("the response has another `atomicityGroup` than the request")]
    GroupDiffers,
    /// F75: the response is a success, and a dependency of the request has failed: a request whose
    /// response is not a success, or a group with such a member.
    #[error("the response is a success, though a dependency of the request failed")]
    UnsoundSuccess,
}

/// Why the responses of a service do not fit a batch: the response (F71, F72) or the request (F73 to F75) at a position
/// breaks a rule.
pub type MatchFault = RuleFault<MatchRule>;

impl Rule for MatchRule {
    ghost prints = { rule_row };

    fn refusal(self, at: usize) -> Refusal {
        let (code, name, place) = match self {
            MatchRule::UnknownResponse => ("F71", "UnknownResponse", Place::Response(at)),
            MatchRule::ResponseTwice => ("F72", "ResponseTwice", Place::Response(at)),
            MatchRule::ResponseMissing => ("F73", "ResponseMissing", Place::Request(at)),
            MatchRule::GroupDiffers => ("F74", "GroupDiffers", Place::Request(at)),
            MatchRule::UnsoundSuccess => ("F75", "UnsoundSuccess", Place::Request(at)),
        };
        Refusal { code, name, place }
    }
}

//! The rules that names can break, F30 to F46, and where one is broken.

ghost use Rattle.odb_check.specs.FaultTable.{rule_row};

use odb_doc::{Place, Refusal, Rule, RuleFault};
use thiserror::Error;

/// A rule that the names of a batch break at one of its requests (OData JSON Format 4.01, sections
/// 19.1 and 19.2).
///
/// F30 to F32 take precedence: F40 to F46 are checked only once no request breaks F30 to F32.
#[derive(Clone, Copy, Debug, PartialEq, Eq, Error)]
pub enum NameRule {
    /// F30: an earlier request has the same identifier.
    #[error("an earlier request has the same `id`")]
    IdTwice,
    /// F31: the identifier is the atomicity group of some request.
    #[error("`id` is the `atomicityGroup` of some request")]
    IdIsGroup,
    /// F32: the request has a group that the request just before it is not in, and an earlier one is
    /// in it.
    #[error("the requests of the group are not adjacent")]
    GroupSplit,
    /// F40: a name of `dependsOn` is neither an identifier nor a group of the batch.
    #[error("`dependsOn` has a name that the batch does not have")]
    UnknownName,
    /// F41: a name is the identifier of this request or of a later one, or is a group all of whose
    /// requests come later.
    #[error("`dependsOn` names a request or a group that does not precede")]
    ForwardName,
    /// F42: a name is the group of this request.
    #[error("`dependsOn` names the request's own group")]
    OwnGroup,
    /// F43: a name is the identifier of an earlier request that is in another group, and that group
    /// is not in `dependsOn`.
    #[error("`dependsOn` names a member of a group without the group")]
    GroupNotListed,
    /// F44: the reference is not an identifier of the batch.
    #[error("`url` refers to a request that the batch does not have")]
    UnknownReference,
    /// F45: the reference is the identifier of this request or of a later one.
    #[error("`url` refers to a request that does not precede")]
    ForwardReference,
    /// F46: the reference is the identifier of an earlier request, the two are not in one group, and
    /// neither the reference nor the group of the earlier request is in `dependsOn`.
    #[error("`url` refers to a request that `dependsOn` does not name")]
    ReferenceNotListed,
}

/// Why the names of a batch do not fit together: the request at a position breaks a rule.
pub type CheckFault = RuleFault<NameRule>;

impl Rule for NameRule {
    ghost prints = { rule_row };

    fn refusal(self, at: usize) -> Refusal {
        let label = match self {
            NameRule::IdTwice => ("F30", "IdTwice"),
            NameRule::IdIsGroup => ("F31", "IdIsGroup"),
            NameRule::GroupSplit => ("F32", "GroupSplit"),
            NameRule::UnknownName => ("F40", "UnknownName"),
            NameRule::ForwardName => ("F41", "ForwardName"),
            NameRule::OwnGroup => ("F42", "OwnGroup"),
            NameRule::GroupNotListed => ("F43", "GroupNotListed"),
            NameRule::UnknownReference => ("F44", "UnknownReference"),
            NameRule::ForwardReference => ("F45", "ForwardReference"),
            NameRule::ReferenceNotListed => ("F46", "ReferenceNotListed"),
        };
        Refusal::new(label, Place::Request(at))
    }
}

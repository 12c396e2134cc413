//! What a response repeats of the requests of its batch: their ids and groups.

ghost use Rattle.std.specs.Prelude.{◌≡◌, ◌<◌, List, Some, length, slice_get};
ghost use Rattle.odb_check.specs.Plans.{plan_records};
ghost use Rattle.odb_reply.specs.Labels.{label_value};
ghost use Rattle.odb_reply.specs.Responses.{labels_of};

use odb_check::Plan;

/// What a response repeats of its request (OData JSON Format 4.01, section 19.5).
#[derive(Clone, Copy, Debug, PartialEq, Eq)]
pub struct Label<'a> {
    /// The identifier of the request.
    pub id: &'a str,
    /// The atomicity group that the request is in, if any.
    pub group: Option<&'a str>,
}

/// The ids and groups of the requests of a batch.
///
/// A [`Plan`] has those of its batch. A caller that keeps no plan beside a run keeps these alone.
pub trait Labels {
    ghost use Rattle.std.specs.Prelude.{◌≡◌, ◌<◌, List, Some, length, slice_get};
    ghost use Rattle.odb_reply.specs.Labels.{label_value};
    ghost use Rattle.odb_reply.specs.Responses.{LabelValue};

    /// The ids and groups, in the order of the requests.
    ghost labels: { Self → List LabelValue };

    /// Returns the id and the group of request `i`, counted from 0.
    fn label(&self, i: u32) -> Label<'_>
        requires { i < length (labels self.now) }
        ensures { slice_get (labels self.now) i ≡ Some (label_value result) };
}

impl Labels for Plan<'_> {
    ghost labels = { λ plan. labels_of (plan_records plan) };

    fn label(&self, i: u32) -> Label<'_> {
        let request = self.request(i);
        Label {
            id: request.id,
            group: request.group,
        }
    }
}

//! The rest of a batch.

ghost use Rattle.std.specs.Prelude.{◌≡◌, ◌<◌, ℕ, List, Bool, length, map, IsSome, IfOk, IfErr};
ghost use Rattle.serde_json.specs.View.{view};
ghost use Rattle.odb_check.specs.Plans.{plan_records};
ghost use Rattle.odb_check.specs.Units as all;
ghost use Rattle.odb_reply.specs.Fits as fits;
ghost use Rattle.odb_send.specs.Faults.{RefusesRest, rest_row};
ghost use Rattle.odb_send.specs.Answers.{answers_in, recorded};
ghost use Rattle.odb_send.specs.Marks.{AreChanges};
ghost use Rattle.odb_send.specs.Rests.{IsRestOf, change_of};
ghost use Rattle.odb_send.specs.Units.{AreMarksOf, IsInRest};

use crate::answers::{Recorded, answers_of};
use crate::changes::{Change, change_of};
use crate::fault::RestFault;
use crate::units::kept_units;
use crate::urls::is_kept;
use odb_check::Plan;
use odb_reply::Table;
use serde_json::Value;
use std::alloc::Global;

/// What of a batch may be sent again, as a batch of its own: which units, and what changes of their requests.
#[derive(Drop)]
pub struct Rest {
    pub(crate) kept: Vec<bool>,
    pub(crate) changes: Vec<Change>,
}

impl Rest {
    ghost use Rattle.odb_send.specs.Rests.{is_kept, kept};

    /// Returns whether the request at a position of the batch, counted from 0, is in the rest. `plan` is that of the batch.
    pub fn contains(&self, plan: &Plan<'_>, i: u32) -> bool
        requires request { i < length (plan_records plan.now) }
        requires count { length (kept self.now) ≡ all.unit_count (plan_records plan.now) }
        ensures { result ≡ is_kept (plan_records plan.now) (kept self.now) i }
    {
        is_kept(plan, &self.kept, i)
    }
}

/// Returns what changes of each request in the rest, or the first F90 or F91.
pub(crate) fn changes_of(
    alloc: Global,
    plan: &Plan<'_>,
    kept: &[bool],
    answers: &[Recorded<'_>],
) -> Result<Vec<Change>, RestFault>
    requires count { length kept.now ≡ all.unit_count (plan_records plan.now) }
    requires answers { length answers.now ≡ length (plan_records plan.now) }
    ensures changes { IfOk result (λ found. AreChanges (plan_records plan.now) kept.now
        (answers_in answers.now) (length (plan_records plan.now)) (map change_of found.items)) }
    ensures first { IfErr result (λ fault. RefusesRest fault (plan_records plan.now) kept.now
        (answers_in answers.now)) }
{
    let mut found = Vec::with_capacity(alloc, plan.len() as usize)?;
    for i in 0..plan.len() {
        let change = change_of(alloc, plan, kept, answers, i)?;
        found.push(change)?;
    }
    Ok(found)
}

/// Returns the rest of a batch: what may be sent again by the responses of a service (OData JSON Format 4.01,
/// sections 19.1 and 19.4).
///
/// `table` is what [`odb_reply::match_responses`] returned for the plan and the responses of the document, and
/// `responses` is the value of that document. A unit, which is an atomicity group or a request without one, is in
/// the rest if it is neither done nor left out. It is done if all its requests were answered with 200 to 299. It is
/// left out if one of its requests may not be sent again, or needs something of a unit that is left out.
///
/// A URL that refers to a request that is not in the rest becomes the `Location` that was recorded for that
/// request, and what follows the first segment of the URL (section 19.2). An `If-Match` or `If-None-Match` that is `$` and
/// the id of an earlier request that is not in the rest becomes the `ETag` that was recorded for that request, if it has
/// succeeded (section 19.3).
///
/// Allocates the marks of the units, and the URLs and conditions that change. Takes O(n) for documents of n bytes.
///
/// # Errors
///
/// At the first request of the rest that has no such text: F90 if its URL refers to a request that is not in the rest, and
/// no Location makes a URL of it that refers to no request and names no batch; else F91 if a condition refers to a
/// request for which no ETag was recorded. `OutOfMemory` if an allocation fails.
pub fn rest_of(
    alloc: Global,
    plan: &Plan<'_>,
    table: &Table,
    responses: &Value,
) -> Result<Rest, RestFault>
    requires places { length (fits.places table.now) ≡ length (plan_records plan.now) }
    requires statuses { length (fits.statuses table.now) ≡ length (plan_records plan.now) }
    ensures rest { IfOk result (IsRestOf (plan_records plan.now) (fits.statuses table.now)
        (recorded (view responses.now) (fits.places table.now) (fits.statuses table.now))) }
    ensures least { IfErr result (λ fault. (units : List Bool) → AreMarksOf (plan_records plan.now)
        (IsInRest (plan_records plan.now) (fits.statuses table.now)) units
        → RefusesRest fault (plan_records plan.now) units
        (recorded (view responses.now) (fits.places table.now) (fits.statuses table.now))) }
    ensures marks { IfErr result (λ fault. IsSome (rest_row fault) → (units : List Bool)
        × AreMarksOf (plan_records plan.now)
        (IsInRest (plan_records plan.now) (fits.statuses table.now)) units) }
{
    let kept = kept_units(alloc, plan, table)?;
    let answers = answers_of(alloc, plan, table, responses)?;
    let changes = changes_of(alloc, plan, &kept, &answers)?;
    Ok(Rest { kept, changes })
}

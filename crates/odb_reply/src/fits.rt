//! Whether the responses of a service fit a batch.

ghost use Rattle.std.specs.Prelude.{◌≡◌, ◌<◌, ◌↔◌, ℕ, length, not, IsTrue, IfOk, IfErr, IfNone, IfSome, OnOk};
ghost use Rattle.std.specs.List.{list_any};
ghost use Rattle.odb_doc.specs.batch.Records.{record_of};
ghost use Rattle.odb_check.specs.Needs.{needs_at};
ghost use Rattle.odb_check.specs.Plans.{plan_graph, plan_records};
ghost use Rattle.odb_check.specs.PlanGraph.{IsNeedAmong};
ghost use Rattle.odb_reply.specs.Fits as fits;
ghost use Rattle.odb_reply.specs.LeastMatchFault.{RefusesMatch};
ghost use Rattle.odb_reply.specs.Places as known;
ghost use Rattle.odb_reply.specs.ResponseDocuments.{entries, entry_of};

use crate::match_fault::{MatchFault, MatchRule};
use crate::places::places_of;
use crate::responses::{Response, Responses};
use crate::table::{Table, table_of};
use odb_check::{Need, Plan};
use odb_doc::Request;
use odb_doc::status::is_success;
use std::alloc::{AllocError, Global};

/// Returns whether a dependency has succeeded.
fn is_satisfied(table: &Table, units: &[bool], need: Need) -> bool
    requires { IsNeedAmong (length (fits.statuses table.now)) (length units.now) need }
    ensures { result ≡ known.is_satisfied (fits.statuses table.now) units.now need }
{
    match need {
        Need::One(r) => is_success(table.status(r)),
        Need::Group(u) => units[u as usize],
    }
}

/// Returns whether a dependency of the request has failed.
fn has_failed_need(plan: &Plan<'_>, table: &Table, units: &[bool], i: u32) -> bool
    requires request { i < length (plan_records plan.now) }
    requires statuses { length (fits.statuses table.now) ≡ length (plan_records plan.now) }
    requires units { fits.AreUnits (plan_graph plan.now) (fits.statuses table.now) units.now }
    ensures { result ≡ list_any (λ need. not (known.is_satisfied (fits.statuses table.now) units.now need))
        (needs_at (plan_records plan.now) i) }
{
    odb_check::laws::every_plan(plan);
    for need in plan.needs(i) {
        if !is_satisfied(table, units, *need) {
            return true;
        }
    }
    false
}

/// Returns whether a response has the group of a request.
fn has_group(response: &Response<'_>, request: &Request<'_>) -> bool
    ensures { IsTrue result ↔ ((entry_of response.now).group ≡ (record_of request.now).group) }
{
    response.group == request.group
}

/// Returns the first rule that the response to the request at a position breaks.
fn broken_rule(
    plan: &Plan<'_>,
    responses: &Responses<'_>,
    table: &Table,
    units: &[bool],
    i: u32,
) -> Option<MatchRule>
    requires request { i < length (plan_records plan.now) }
    requires rows { known.HasRows (plan_records plan.now) (entries responses.now)
        (fits.places table.now) (fits.statuses table.now) }
    requires units { fits.AreUnits (plan_graph plan.now) (fits.statuses table.now) units.now }
    ensures none { IfNone result (known.NoneIn 3 (plan_records plan.now) (entries responses.now) i) }
    ensures first { IfSome result (known.IsFirstIn 3 (plan_records plan.now) (entries responses.now) i) }
{
    odb_check::laws::every_plan(plan);
    if !has_group(responses.entry(table.place(i)), plan.request(i)) {
        return Some(MatchRule::GroupDiffers);
    }
    if is_success(table.status(i)) && has_failed_need(plan, table, units, i) {
        return Some(MatchRule::UnsoundSuccess);
    }
    None
}

/// Looks for the first request whose response has another group, or is a success though a dependency
/// of the request has failed.
fn check_requests(
    plan: &Plan<'_>,
    responses: &Responses<'_>,
    table: &Table,
    units: &[bool],
) -> Result<(), MatchFault>
    requires rows { known.HasRows (plan_records plan.now) (entries responses.now)
        (fits.places table.now) (fits.statuses table.now) }
    requires units { fits.AreUnits (plan_graph plan.now) (fits.statuses table.now) units.now }
    ensures none { OnOk result ((i : ℕ) → i < length (plan_records plan.now)
        → known.NoneIn 3 (plan_records plan.now) (entries responses.now) i) }
    ensures first { IfErr result (known.IsFirstOfLast (plan_records plan.now)
        (entries responses.now)) }
{
    for i in 0..plan.len() {
        if let Some(rule) = broken_rule(plan, responses, table, units, i) {
            return Err(MatchFault::Broken {
                at: i as usize,
                rule,
            });
        }
    }
    Ok(())
}

/// Checks that the responses of a service fit the batch of a plan (OData JSON Format 4.01, section
/// 19.5; OData Protocol 4.01, section 11.7): every request is answered once and nothing else is, each
/// response has the group of its request, and none is a success (200 to 299) if a dependency of its
/// request is not: a request, or a member of a group. The responses may come in any order.
///
/// Returns the place and the status of the response to each request. Allocates these, and a flag per
/// unit. Takes O(responses + requests + dependencies), and a look-up in the plan for each response.
///
/// Example: `accept` in crates/odb_tests_text/src/examples.rt.
///
/// # Errors
///
/// The first misfit: F71 or F72 at the first response that is unknown or repeated; else F73 at the
/// first request without a response; else F74 or F75 at the first request whose response has another
/// group or is an unsound success, F74 if both. `OutOfMemory` if an allocation fails.
pub fn match_responses(
    alloc: Global,
    plan: &Plan<'_>,
    responses: &Responses<'_>,
) -> Result<Table, MatchFault>
    ensures fits { OnOk result (fits.Fits (plan_records plan.now) (entries responses.now)) }
    ensures table { IfOk result (λ table. fits.IsTableOf (plan_records plan.now) (entries responses.now)
        (fits.places table) (fits.statuses table)) }
    ensures least { IfErr result (λ fault. RefusesMatch fault (plan_records plan.now)
        (entries responses.now)) }
{
    let places = places_of(alloc, plan, responses)?;
    let table = table_of(alloc, plan, responses, &places)?;
    let units = table.succeeded_units(alloc, plan)?;
    check_requests(plan, responses, &table, &units)?;
    Ok(table)
}

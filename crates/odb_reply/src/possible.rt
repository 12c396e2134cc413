//! Whether some finished run answers the statuses of responses.

ghost use Rattle.std.specs.Prelude.{◌≡◌, ◌<◌, ℕ, length, IfOk, IfErr, IfNone, IfSome, OnOk};
ghost use Rattle.odb_check.specs.Plans.{plan_records, plan_graph};
ghost use Rattle.odb_check.specs.PlanGraph.{IsEarlier};
ghost use Rattle.odb_reply.specs.Fits.{AreUnits, statuses};
ghost use Rattle.odb_reply.specs.Starts as starts;
ghost use Rattle.odb_reply.specs.declared.strictness.Strictness.{Strictness};
ghost use Rattle.odb_reply.specs.StatusFaults.{IsPossibleBy, RefusesStatuses, status_at};

use crate::status_fault::{StatusFault, StatusRule};
use crate::strictness::Strictness;
use crate::table::Table;
use odb_check::{Need, Plan};
use odb_doc::status::{FAILED_DEPENDENCY, is_status, is_success};
use std::alloc::{AllocError, Global};

/// Returns whether a dependency of request `i` can have reported a success.
fn can_have_succeeded(
    plan: &Plan<'_>,
    table: &Table,
    units: &[bool],
    started: &[bool],
    i: u32,
    need: Need,
) -> bool
    requires request { i < length (plan_graph plan.now).units }
    requires statuses { length (statuses table.now) ≡ length (plan_records plan.now) }
    requires units { length units.now ≡ (plan_graph plan.now).unit_count }
    requires started { length started.now ≡ i }
    requires earlier { IsEarlier (plan_graph plan.now) i need }
    ensures { result ≡ starts.can_have_succeeded (plan_graph plan.now) (status_at (statuses table.now))
        units.now started.now i need }
{
    odb_check::laws::every_plan(plan);
    match need {
        Need::One(r) => {
            let status = table.status(r);
            is_success(status)
                || plan.unit_of(r) == plan.unit_of(i)
                    && started[r as usize]
                    && status == FAILED_DEPENDENCY
        }
        Need::Group(u) => units[u as usize],
    }
}

/// Returns whether a dependency of request `i` is answered 200 to 299, or is of its own unit.
fn is_met_outside(plan: &Plan<'_>, table: &Table, units: &[bool], i: u32, need: Need) -> bool
    requires request { i < length (plan_graph plan.now).units }
    requires statuses { length (statuses table.now) ≡ length (plan_records plan.now) }
    requires units { length units.now ≡ (plan_graph plan.now).unit_count }
    requires earlier { IsEarlier (plan_graph plan.now) i need }
    ensures { result ≡ starts.is_met_outside (plan_graph plan.now) (status_at (statuses table.now))
        units.now i need }
{
    odb_check::laws::every_plan(plan);
    match need {
        Need::One(r) => plan.unit_of(r) == plan.unit_of(i) || is_success(table.status(r)),
        Need::Group(u) => units[u as usize],
    }
}

/// Returns whether all that request `i` needs of other units is answered 200 to 299.
fn met_outside(plan: &Plan<'_>, table: &Table, units: &[bool], i: u32) -> bool
    requires request { i < length (plan_graph plan.now).units }
    requires statuses { length (statuses table.now) ≡ length (plan_records plan.now) }
    requires units { length units.now ≡ (plan_graph plan.now).unit_count }
    ensures { result ≡ starts.met_outside (plan_graph plan.now) (status_at (statuses table.now))
        units.now i }
{
    odb_check::laws::every_plan(plan);
    for need in plan.needs(i) {
        if !is_met_outside(plan, table, units, i, *need) {
            return false;
        }
    }
    true
}

/// Returns for each unit whether it may have been sent as one: if units may, and what its members need of other units is
/// answered 200 to 299.
fn sent_units(
    alloc: Global,
    plan: &Plan<'_>,
    table: &Table,
    units: &[bool],
    strictness: Strictness,
) -> Result<Vec<bool>, AllocError>
    requires statuses { length (statuses table.now) ≡ length (plan_records plan.now) }
    requires units { length units.now ≡ (plan_graph plan.now).unit_count }
    ensures { IfOk result (λ sent. starts.AreSent strictness (plan_graph plan.now)
        (status_at (statuses table.now)) units.now sent.items) }
{
    odb_check::laws::every_plan(plan);
    match strictness {
        Strictness::Requests => vec![in alloc; false; plan.unit_count() as usize],
        Strictness::Units => plan.passing_units(
            alloc,
            |i|
                requires request { i < length (plan_graph plan.now).units }
                requires statuses { length (statuses table.now) ≡ length (plan_records plan.now) }
                requires units { length units.now ≡ (plan_graph plan.now).unit_count }
                ensures { result ≡ starts.met_outside (plan_graph plan.entry.now)
                    (status_at (statuses table.entry.now)) units.entry.now i }
            { met_outside(plan, table, units, i) },
        ),
    }
}

/// Returns whether request `i` can have started, with its unit or alone.
fn can_start(
    plan: &Plan<'_>,
    table: &Table,
    units: &[bool],
    sent: &[bool],
    started: &[bool],
    i: u32,
) -> bool
    requires request { i < length (plan_graph plan.now).units }
    requires statuses { length (statuses table.now) ≡ length (plan_records plan.now) }
    requires units { length units.now ≡ (plan_graph plan.now).unit_count }
    requires sent { length sent.now ≡ (plan_graph plan.now).unit_count }
    requires started { length started.now ≡ i }
    ensures { result ≡ starts.can_start (plan_graph plan.now) (status_at (statuses table.now))
        units.now sent.now started.now i }
{
    odb_check::laws::every_plan(plan);
    if sent[plan.unit_of(i) as usize] {
        return true;
    }
    for need in plan.needs(i) {
        if !can_have_succeeded(plan, table, units, started, i, *need) {
            return false;
        }
    }
    true
}

/// Returns for each request whether it can have started.
fn starts_of(
    alloc: Global,
    plan: &Plan<'_>,
    table: &Table,
    units: &[bool],
    sent: &[bool],
) -> Result<Vec<bool>, AllocError>
    requires statuses { length (statuses table.now) ≡ length (plan_records plan.now) }
    requires units { length units.now ≡ (plan_graph plan.now).unit_count }
    requires sent { length sent.now ≡ (plan_graph plan.now).unit_count }
    ensures { IfOk result (λ started. starts.AreStarts (plan_graph plan.now) (status_at (statuses table.now))
        units.now sent.now (length (plan_graph plan.now).units) started.items) }
{
    odb_check::laws::every_plan(plan);
    let mut started = Vec::with_capacity(alloc, plan.len() as usize)?;
    for i in 0..plan.len() {
        let can = can_start(plan, table, units, sent, &started, i);
        started.push(can)?;
    }
    Ok(started)
}

/// Returns the first rule that the status of request `i` breaks, whichever runs it is compared with.
fn broken_status(
    plan: &Plan<'_>,
    table: &Table,
    units: &[bool],
    started: &[bool],
    i: u32,
) -> Option<StatusRule>
    requires request { i < length (plan_graph plan.now).units }
    requires statuses { length (statuses table.now) ≡ length (plan_records plan.now) }
    requires units { AreUnits (plan_graph plan.now) (statuses table.now) units.now }
    requires started { length started.now ≡ length (plan_graph plan.now).units }
    ensures none { (by : Strictness)
        → starts.HaveStarts by (plan_graph plan.now) (status_at (statuses table.now)) units.now started.now
        → IfNone result (starts.IsSound by (plan_graph plan.now) (status_at (statuses table.now)) i) }
    ensures first { (by : Strictness)
        → starts.HaveStarts by (plan_graph plan.now) (status_at (statuses table.now)) units.now started.now
        → IfSome result (starts.IsFirstAt by (plan_graph plan.now) (status_at (statuses table.now)) i) }
{
    odb_check::laws::every_plan(plan);
    let status = table.status(i);
    if !is_status(status) {
        return Some(StatusRule::NotFinal);
    }
    if is_success(status) && !units[plan.unit_of(i) as usize] {
        return Some(StatusRule::PartialGroup);
    }
    if status != FAILED_DEPENDENCY && !started[i as usize] {
        return Some(StatusRule::NotStarted);
    }
    None
}

/// Looks for the first request whose status breaks a rule.
fn check_each(
    plan: &Plan<'_>,
    table: &Table,
    units: &[bool],
    started: &[bool],
) -> Result<(), StatusFault>
    requires statuses { length (statuses table.now) ≡ length (plan_records plan.now) }
    requires units { AreUnits (plan_graph plan.now) (statuses table.now) units.now }
    requires started { length started.now ≡ length (plan_graph plan.now).units }
    ensures none { (by : Strictness)
        → starts.HaveStarts by (plan_graph plan.now) (status_at (statuses table.now)) units.now started.now
        → OnOk result ((i : ℕ) → i < length (plan_graph plan.now).units
        → starts.IsSound by (plan_graph plan.now) (status_at (statuses table.now)) i) }
    ensures first { (by : Strictness)
        → starts.HaveStarts by (plan_graph plan.now) (status_at (statuses table.now)) units.now started.now
        → IfErr result (λ fault. RefusesStatuses fault by (plan_graph plan.now)
        (status_at (statuses table.now))) }
{
    for i in 0..plan.len() {
        if let Some(rule) = broken_status(plan, table, units, started, i) {
            return Err(StatusFault::Broken {
                at: i as usize,
                rule,
            });
        }
    }
    Ok(())
}

/// Checks that some finished run of a plan answers the statuses of a table (OData JSON Format 4.01, sections 19.1 and
/// 19.5; OData Protocol 4.01, section 11.7), in either mode: each is from 200 to 599; of a group all are from 200 to
/// 299 or none is; and whatever is not 424 is of a request that can have started.
///
/// A request can have started if each dependency can have reported a success: it is answered 200 to 299; or it is of the
/// same group, can have started, and is answered 424, as what is undone is. With [`Strictness::Units`] it can also have
/// started with its group, if whatever the group depends on outside of it is answered 200 to 299.
///
/// The table is that of [`crate::match_responses`] for the plan. Allocates two flags per unit and one per request. Takes
/// O(requests + dependencies).
///
/// Example: `answered_by_run` in crates/odb_tests_text/src/laws/replies.rt.
///
/// # Errors
///
/// F76, F77 or F78 at the first request whose status breaks one of these rules, the one with the smallest number.
/// `OutOfMemory` if an allocation fails.
pub fn check_statuses(
    alloc: Global,
    plan: &Plan<'_>,
    table: &Table,
    strictness: Strictness,
) -> Result<(), StatusFault>
    requires { length (statuses table.now) ≡ length (plan_records plan.now) }
    ensures possible { OnOk result (IsPossibleBy strictness (plan_graph plan.now)
        (status_at (statuses table.now))) }
    ensures least { IfErr result (λ fault. RefusesStatuses fault strictness (plan_graph plan.now)
        (status_at (statuses table.now))) }
{
    odb_check::laws::every_plan(plan);
    let units = table.succeeded_units(alloc, plan)?;
    let sent = sent_units(alloc, plan, table, &units, strictness)?;
    let started = starts_of(alloc, plan, table, &units, &sent)?;
    check_each(plan, table, &units, &started)?;
    Ok(())
}

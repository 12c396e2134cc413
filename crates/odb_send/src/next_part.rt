//! The next part of a batch: requests that may be sent together as a batch of their own.

ghost use Rattle.std.specs.Prelude.{◌≡◌, ◌<◌, ◌↔◌, ℕ, List, Bool, All, length, IsTrue, IfOk, IfErr};
ghost use Rattle.std.specs.List.{list_any};
ghost use Rattle.odb_check.specs.Firsts.{list_below};
ghost use Rattle.odb_check.specs.Plans.{plan_records};
ghost use Rattle.odb_check.specs.Units as all;
ghost use Rattle.odb_doc.specs.declared.rule_fault.RuleFault.TheVariants as faults;
ghost use Rattle.odb_send.specs.Answers.{answers_in};
ghost use Rattle.odb_send.specs.Faults.{RefusesRest};
ghost use Rattle.odb_send.specs.Marks.{IsCutPart, marked_before};
ghost use Rattle.odb_send.specs.NextPart as parts;
ghost use Rattle.odb_send.specs.Rests.{kept};
ghost use Rattle.odb_send.specs.Units.{AreMarksOf, marked};

use crate::answers::Recorded;
use crate::fault::{RestFault, RestRule};
use crate::progress::{starting_units, succeeded_units};
use crate::rest::{Rest, changes_of};
use crate::units::barred_units;
use crate::urls::is_kept;
use odb_check::Plan;
use odb_sched::RequestState;
use std::alloc::{AllocError, Global};

/// Returns for each unit whether it has to wait.
fn waiting_units(
    alloc: Global,
    plan: &Plan<'_>,
    done: &[bool],
    left: &[bool],
) -> Result<Vec<bool>, AllocError>
    requires done { length done.now ≡ all.unit_count (plan_records plan.now) }
    requires left { length left.now ≡ all.unit_count (plan_records plan.now) }
    ensures { IfOk result (λ units. AreMarksOf (plan_records plan.now)
        (parts.HasToWait (plan_records plan.now) done.now left.now) units.items) }
{
    odb_check::laws::every_plan(plan);
    barred_units(
        alloc,
        plan,
        |u|
            requires { u < length done.now }
            ensures { result ≡ marked done.entry.now u }
        { done[u as usize] },
        |i|
            requires request { i < length (plan_records plan.now) }
            requires count { length left.now ≡ all.unit_count (plan_records plan.now) }
            ensures { result ≡ marked left.entry.now (all.unit_at (plan_records plan.entry.now) i) }
        { left[plan.unit_of(i) as usize] },
    )
}

/// Returns the units that fit into the next part of a batch, which have at most `limit` requests together.
fn fitting_units(
    alloc: Global,
    plan: &Plan<'_>,
    done: &[bool],
    left: &[bool],
    limit: u32,
) -> Result<Vec<bool>, AllocError>
    requires done { length done.now ≡ all.unit_count (plan_records plan.now) }
    requires left { length left.now ≡ all.unit_count (plan_records plan.now) }
    ensures { IfOk result (λ units. parts.AreFitting (plan_records plan.now) done.now left.now limit
        units.items) }
{
    odb_check::laws::every_plan(plan);
    let waiting = waiting_units(alloc, plan, done, left)?;
    let mut units = vec![in alloc; false; plan.unit_count() as usize]?;
    let mut room = limit;
    for u in 0..plan.unit_count() {
        if !done[u as usize] && !waiting[u as usize] {
            let count = plan.unit_size(u);
            if count > room {
                return Ok(units);
            }
            room -= count;
            units[u as usize] = true;
        }
    }
    Ok(units)
}

/// Returns whether a unit has a mark and comes before unit `end`.
fn is_marked_before(units: &[bool], end: usize, u: usize) -> bool
    requires { u < length units.now }
    ensures { result ≡ marked_before units.now end u }
{
    u < end && units[u]
}

/// Returns the marks of the units before unit `end`.
fn units_before(alloc: Global, units: &[bool], end: usize) -> Result<Vec<bool>, AllocError>
    ensures { IfOk result (λ kept. kept.items
        ≡ list_below (length units.now) (marked_before units.now end)) }
{
    let mut kept = Vec::with_capacity(alloc, units.len())?;
    for u in 0..units.len() {
        kept.push(is_marked_before(units, end, u))?;
    }
    Ok(kept)
}

/// Returns whether a unit has a mark.
fn has_unit(units: &[bool]) -> bool
    ensures { result ≡ list_any (λ mark. mark) units.now }
{
    units.iter().any(|mark| *mark)
}

/// Returns the part of the units that fit before that of request `at`, the first that breaks a rule; that fault if there are
/// none.
fn part_before(
    alloc: Global,
    plan: &Plan<'_>,
    fitting: &[bool],
    answers: &[Recorded<'_>],
    at: usize,
    rule: RestRule,
) -> Result<Rest, RestFault>
    requires count { length fitting.now ≡ all.unit_count (plan_records plan.now) }
    requires answers { length answers.now ≡ length (plan_records plan.now) }
    requires breaks { RefusesRest (faults.Broken at rule) (plan_records plan.now) fitting.now
        (answers_in answers.now) }
    ensures part { IfOk result (IsCutPart (plan_records plan.now) fitting.now
        (answers_in answers.now)) }
    ensures least { IfErr result (λ fault. parts.RefusesPart fault (plan_records plan.now) fitting.now
        (answers_in answers.now)) }
{
    odb_check::laws::every_plan(plan);
    let kept = units_before(alloc, fitting, plan.unit_of(at as u32) as usize)?;
    if !has_unit(&kept) {
        return Err(RestFault::Broken { at, rule });
    }
    let changes = changes_of(alloc, plan, &kept, answers)?;
    Ok(Rest { kept, changes })
}

/// Returns the part of the units that fit, up to the first that lacks a Location or an ETag; F90 or F91 if that is the first
/// of all.
fn placed_part(
    alloc: Global,
    plan: &Plan<'_>,
    fitting: Vec<bool>,
    answers: &[Recorded<'_>],
) -> Result<Rest, RestFault>
    requires count { length fitting.items ≡ all.unit_count (plan_records plan.now) }
    requires answers { length answers.now ≡ length (plan_records plan.now) }
    ensures part { IfOk result (IsCutPart (plan_records plan.now) fitting.items
        (answers_in answers.now)) }
    ensures least { IfErr result (λ fault. parts.RefusesPart fault (plan_records plan.now) fitting.items
        (answers_in answers.now)) }
{
    match changes_of(alloc, plan, &fitting, answers) {
        Ok(changes) => Ok(Rest {
            kept: fitting,
            changes,
        }),
        Err(RestFault::Broken { at, rule }) => part_before(
            alloc, plan, &fitting, answers, at, rule,
        ),
        Err(RestFault::OutOfMemory) => Err(RestFault::OutOfMemory),
    }
}

/// Returns the next part of a batch, by which of its units are done and which are left.
fn part_by(
    alloc: Global,
    plan: &Plan<'_>,
    done: &[bool],
    left: &[bool],
    limit: u32,
    answers: &[Recorded<'_>],
) -> Result<Rest, RestFault>
    requires done { length done.now ≡ all.unit_count (plan_records plan.now) }
    requires left { length left.now ≡ all.unit_count (plan_records plan.now) }
    requires answers { length answers.now ≡ length (plan_records plan.now) }
    ensures part { IfOk result (parts.IsPartOf (plan_records plan.now) done.now left.now limit
        (answers_in answers.now)) }
    ensures least { IfErr result (λ fault. (fitting : List Bool)
        → parts.AreFitting (plan_records plan.now) done.now left.now limit fitting
        → parts.RefusesPart fault (plan_records plan.now) fitting (answers_in answers.now)) }
{
    let fitting = fitting_units(alloc, plan, done, left, limit)?;
    placed_part(alloc, plan, fitting, answers)
}

/// Returns the next part of a batch on its way: requests that may be sent together as a batch of their own (OData JSON
/// Format 4.01, sections 19.1 and 19.4), `limit` of them at most. [`crate::rest_text`] makes their text.
///
/// `states` has what has become of each request, as [`odb_sched::OwnedRun::state`] returns it, and `answers` the Location and
/// the ETag of each that has succeeded, if they are known. A unit is an atomicity group or a request without one. It is done if all its
/// requests have succeeded, and left if each of them may still start. It has to wait if it is neither, or if one of its
/// requests needs something of a unit that has to wait. The part has the units that are left and need not wait, in the
/// order of the batch, up to the first that does not fit any more, or lacks a Location or an ETag. So what its requests need is
/// done, or in the part.
///
/// A URL that refers to a request that is not in the part becomes the Location of that request, and what follows the
/// first segment of the URL. A unit lacks a Location if one of its requests has such a URL, and no Location makes a URL of
/// it that refers to no request and names no batch.
///
/// An `If-Match` or `If-None-Match` that is `$` and the id of an earlier request that is not in the part becomes the ETag of that
/// request (section 19.3). A unit lacks an ETag if one of its requests has such a header, and no ETag is known.
///
/// Takes O(requests + dependencies) and the length of the URLs and conditions that change. Allocates marks of units and
/// requests, and these texts.
///
/// # Errors
///
/// If the first unit that may be sent lacks a Location or an ETag, at its first request that does: F90 for a Location, else F91.
/// `OutOfMemory` if an allocation fails.
pub fn part_of(
    alloc: Global,
    plan: &Plan<'_>,
    states: &[RequestState],
    limit: u32,
    answers: &[Recorded<'_>],
) -> Result<Rest, RestFault>
    requires states { length states.now ≡ length (plan_records plan.now) }
    requires answers { length answers.now ≡ length (plan_records plan.now) }
    ensures part { IfOk result (parts.IsPartAfter (plan_records plan.now) states.now limit
        (answers_in answers.now)) }
    ensures least { IfErr result (λ fault. (done left fitting : List Bool)
        → parts.HasProgress (plan_records plan.now) states.now done left
        → parts.AreFitting (plan_records plan.now) done left limit fitting
        → parts.RefusesPart fault (plan_records plan.now) fitting
        (answers_in answers.now)) }
{
    let done = succeeded_units(alloc, plan, states)?;
    let left = starting_units(alloc, plan, states)?;
    part_by(alloc, plan, &done, &left, limit, answers)
}

/// Returns whether no unit has more requests than a part may have: then each fits into one.
///
/// Takes O(units).
pub fn fits_limit(plan: &Plan<'_>, limit: u32) -> bool
    ensures { IsTrue result ↔ parts.HasNoLonger (plan_records plan.now) limit }
{
    odb_check::laws::every_plan(plan);
    for u in 0..plan.unit_count() {
        if plan.unit_size(u) > limit {
            return false;
        }
    }
    true
}

/// Returns the positions of the requests of a part, in order.
///
/// Takes O(requests).
///
/// # Errors
///
/// If an allocation fails.
pub fn positions_of(alloc: Global, plan: &Plan<'_>, part: &Rest) -> Result<Vec<u32>, AllocError>
    requires { length (kept part.now) ≡ all.unit_count (plan_records plan.now) }
    ensures positions { IfOk result (λ found. found.items
        ≡ parts.positions_in (plan_records plan.now) (kept part.now)) }
    ensures within { IfOk result (λ found. All (λ i. i < length (plan_records plan.now)) found.items) }
{
    let mut found = Vec::new(alloc);
    for i in 0..plan.len() {
        if is_kept(plan, &part.kept, i) {
            found.push(i)?;
        }
    }
    Ok(found)
}

//! Which units of a batch are done, and which are left out of the rest.

ghost use Rattle.std.specs.Prelude.{◌≡◌, ◌<◌, ℕ, Bool, false, length, IfOk};
ghost use Rattle.std.specs.List.{list_any};
ghost use Rattle.odb_check.specs.Needs.{needs_at};
ghost use Rattle.odb_check.specs.Plans.{plan_records};
ghost use Rattle.odb_check.specs.PlanGraph.{AreAnswers, IsNeedAmong, unit_needed};
ghost use Rattle.odb_check.specs.Units.{unit_at};
ghost use Rattle.odb_check.specs.Units as all;
ghost use Rattle.odb_reply.specs.Fits.{statuses};
ghost use Rattle.odb_send.specs.Repeats.{may_repeat_at};
ghost use Rattle.odb_send.specs.Units.{AreMarksOf, IsBarred, IsInRest, IsLeftOut, marked};

use crate::repeat::may_repeat;
use odb_check::{Need, Plan};
use odb_reply::Table;
use std::alloc::{AllocError, Global};

/// Returns whether the unit of what is needed has a mark.
pub(crate) fn is_marked(plan: &Plan<'_>, units: &[bool], need: Need) -> bool
    requires need { IsNeedAmong (length (plan_records plan.now)) (all.unit_count (plan_records plan.now)) need }
    requires count { length units.now ≡ all.unit_count (plan_records plan.now) }
    ensures { result ≡ marked units.now (unit_needed (unit_at (plan_records plan.now)) need) }
{
    match need {
        Need::One(r) => units[plan.unit_of(r) as usize],
        Need::Group(u) => units[u as usize],
    }
}

/// Returns whether a request needs something of a unit that has a mark.
pub(crate) fn needs_marked(plan: &Plan<'_>, units: &[bool], i: u32) -> bool
    requires request { i < length (plan_records plan.now) }
    requires count { length units.now ≡ all.unit_count (plan_records plan.now) }
    ensures { result ≡ list_any (λ need. marked units.now (unit_needed (unit_at (plan_records plan.now)) need))
        (needs_at (plan_records plan.now) i) }
{
    odb_check::laws::every_plan(plan);
    for need in plan.needs(i) {
        if is_marked(plan, units, *need) {
            return true;
        }
    }
    false
}

/// Returns for each unit whether it is barred, by which units are exempt and which requests pass a test: what a request
/// needs is in its unit or in one before it.
pub(crate) fn barred_units<E: Fn(u32) -> bool, T: Fn(u32) -> bool>(
    alloc: Global,
    plan: &Plan<'_>,
    is_exempt: E,
    passes: T,
) -> Result<Vec<bool>, AllocError>
    requires units { (u : ℕ) → u < all.unit_count (plan_records plan.now) → E.pre is_exempt u }
    requires requests { (i : ℕ) → i < length (plan_records plan.now) → T.pre passes i }
    ensures { (exempt test : ℕ → Bool)
        → AreAnswers (all.unit_count (plan_records plan.now)) (E.post is_exempt) exempt
        → AreAnswers (length (plan_records plan.now)) (T.post passes) test
        → IfOk result (λ units. AreMarksOf (plan_records plan.now)
        (IsBarred (plan_records plan.now) exempt test) units.items) }
{
    odb_check::laws::every_plan(plan);
    let mut units = vec![in alloc; false; plan.unit_count() as usize]?;
    for i in 0..plan.len() {
        let u = plan.unit_of(i);
        if !is_exempt(u) && (!passes(i) || needs_marked(plan, &units, i)) {
            units[u as usize] = true;
        }
    }
    Ok(units)
}

/// Returns for each unit whether it is left out.
fn left_out_units(alloc: Global, plan: &Plan<'_>, table: &Table) -> Result<Vec<bool>, AllocError>
    requires { length (statuses table.now) ≡ length (plan_records plan.now) }
    ensures { IfOk result (λ units. AreMarksOf (plan_records plan.now)
        (IsLeftOut (plan_records plan.now) (statuses table.now)) units.items) }
{
    barred_units(
        alloc,
        plan,
        |_u|
            ensures { result ≡ false }
        { false },
        |i|
            requires request { i < length (plan_records plan.now) }
            requires count { length (statuses table.now) ≡ length (plan_records plan.now) }
            ensures { result ≡ may_repeat_at (plan_records plan.entry.now) (statuses table.entry.now) i }
        { may_repeat(plan.request(i).method, table.status(i)) },
    )
}

/// Returns for each unit whether it is in the rest: it is neither done nor left out.
pub(crate) fn kept_units(
    alloc: Global,
    plan: &Plan<'_>,
    table: &Table,
) -> Result<Vec<bool>, AllocError>
    requires { length (statuses table.now) ≡ length (plan_records plan.now) }
    ensures { IfOk result (λ units. AreMarksOf (plan_records plan.now)
        (IsInRest (plan_records plan.now) (statuses table.now)) units.items) }
{
    odb_check::laws::every_plan(plan);
    let done = table.succeeded_units(alloc, plan)?;
    let left_out = left_out_units(alloc, plan, table)?;
    let mut kept = Vec::with_capacity(alloc, done.len())?;
    for u in 0..done.len() {
        kept.push(!done[u] && !left_out[u])?;
    }
    Ok(kept)
}

//! Parts of a batch on its way: what holds of each, that it is one, and when it has a request.

ghost use Rattle.std.specs.Prelude.{◌≡◌, ◌≤◌, ◌<◌, true, ℕ, Bool, List, length, IfOk, IfSome};
ghost use Rattle.odb_check.specs.Plans.{plan_records};
ghost use Rattle.odb_send.specs.Answers.{answers_in};
ghost use Rattle.odb_send.specs.Laws.{IsPartOfPlan};
ghost use Rattle.odb_send.specs.NextPart.{HasProgress, HasSome, IsFresh, IsPartAfter, MayGo, NeedsMet, has_succeeded, may_start, positions_in, state_at};
ghost use Rattle.odb_send.specs.Rests.{kept, records_in};
ghost use Rattle.odb_send.specs.Units.{AreMarksOf, IsWhole};
ghost use Rattle.odb_tests_text.specs.Parts.{GoesOn};

use crate::parts::{DIAMOND, GROUP, NONE, moment_of};
use odb_check::Plan;
use odb_check::laws::every_plan;
use odb_doc::status::is_success;
use odb_sched::RequestState;
use odb_send::laws::every_part;
use odb_send::{Recorded, Rest, fits_limit, part_of, positions_of};
use odb_testing::Two;
use odb_testing::plans::{OnPlan, holds_of};
use std::alloc::{AllocError, Global};
use std::test::Fail;

/// A part, and the positions of its requests.
type Found = (Rest, Vec<u32>);

/// Returns the next part of a batch.
fn part_in(
    alloc: Global,
    plan: &Plan<'_>,
    states: &[RequestState],
    limit: u32,
    answers: &[Recorded<'_>],
) -> Option<Found>
    requires states { length states.now ≡ length (plan_records plan.now) }
    requires answers { length answers.now ≡ length (plan_records plan.now) }
    ensures part { IfSome result (λ found. IsPartAfter (plan_records plan.now) states.now limit
        (answers_in answers.now) found.0) }
    ensures positions { IfSome result (λ found. found.1.items
        ≡ positions_in (plan_records plan.now) (kept found.0)) }
{
    let Ok(part) = part_of(alloc, plan, states, limit, answers) else {
        return None;
    };
    match positions_of(alloc, plan, &part) {
        Ok(positions) => Some((part, positions)),
        Err(_) => None,
    }
}

/// Returns the next part of a batch. None of its requests has started, and what they need is in the part or has succeeded.
/// There are at most `limit` of them, and their plan is that of the batch over them.
fn sound_part(
    alloc: Global,
    plan: &Plan<'_>,
    states: &[RequestState],
    limit: u32,
    answers: &[Recorded<'_>],
) -> Option<Found>
    requires states { length states.now ≡ length (plan_records plan.now) }
    requires answers { length answers.now ≡ length (plan_records plan.now) }
    ensures fresh { IfSome result (λ found. IsFresh (plan_records plan.now) states.now (kept found.0)) }
    ensures needs { IfSome result (λ found. NeedsMet (plan_records plan.now) states.now (kept found.0)) }
    ensures limit { IfSome result (λ found. length (records_in (plan_records plan.now) found.0) ≤ limit) }
    ensures plan { IfSome result (λ found. IsPartOfPlan (plan_records plan.now) (kept found.0)
        (records_in (plan_records plan.now) found.0)) }
{
    every_plan(plan);
    every_part();
    part_in(alloc, plan, states, limit, answers)
}

/// Makes the next part of a batch twice. Both have the same requests.
fn part_twice(
    alloc: Global,
    plan: &Plan<'_>,
    states: &[RequestState],
    limit: u32,
    answers: &[Recorded<'_>],
) -> Two<Found>
    requires states { length states.now ≡ length (plan_records plan.now) }
    requires answers { length answers.now ≡ length (plan_records plan.now) }
    ensures { IfSome result.0 (λ one. IfSome result.1 (λ other. one.1.items ≡ other.1.items)) }
{
    every_part();
    (
        part_in(alloc, plan, states, limit, answers),
        part_in(alloc, plan, states, limit, answers),
    )
}

/// Returns for each unit whether all its requests have succeeded.
fn done_units(
    alloc: Global,
    plan: &Plan<'_>,
    states: &[RequestState],
) -> Result<Vec<bool>, AllocError>
    requires { length states.now ≡ length (plan_records plan.now) }
    ensures { IfOk result (λ units. AreMarksOf (plan_records plan.now)
        (IsWhole (plan_records plan.now) (λ i. has_succeeded (state_at states.now i))) units.items) }
{
    every_plan(plan);
    plan.passing_units(
        alloc,
        |i|
            requires { i < length states.now }
            ensures { result ≡ has_succeeded (state_at states.entry.now i) }
        {
            match states[i as usize] {
                RequestState::Reported(status) => is_success(status),
                _ => false,
            }
        },
    )
}

/// Returns for each unit whether each of its requests may still start.
fn open_units(
    alloc: Global,
    plan: &Plan<'_>,
    states: &[RequestState],
) -> Result<Vec<bool>, AllocError>
    requires { length states.now ≡ length (plan_records plan.now) }
    ensures { IfOk result (λ units. AreMarksOf (plan_records plan.now)
        (IsWhole (plan_records plan.now) (λ i. may_start (state_at states.now i))) units.items) }
{
    every_plan(plan);
    plan.passing_units(
        alloc,
        |i|
            requires { i < length states.now }
            ensures { result ≡ may_start (state_at states.entry.now i) }
        {
            matches!(
                states[i as usize],
                RequestState::Waiting | RequestState::Ready
            )
        },
    )
}

/// Returns whether each unit is done or has not begun, and one is not done.
fn goes_on(done: &[bool], left: &[bool]) -> bool
    requires { length left.now ≡ length done.now }
    ensures { result ≡ true → GoesOn done.now left.now }
{
    let mut is_open = false;
    for u in 0..done.len() {
        if !done[u] {
            if !left[u] {
                return false;
            }
            is_open = true;
        }
    }
    is_open
}

/// Returns whether some unit may go: each has succeeded or has not begun, and one has not begun.
fn has_next(alloc: Global, plan: &Plan<'_>, states: &[RequestState]) -> bool
    requires { length states.now ≡ length (plan_records plan.now) }
    ensures { result ≡ true → (done left : List Bool) → HasProgress (plan_records plan.now) states.now done left
        → (u : ℕ) × MayGo (plan_records plan.now) done left u }
{
    let Ok(done) = done_units(alloc, plan, states) else {
        return false;
    };
    match open_units(alloc, plan, states) {
        Ok(left) => goes_on(&done, &left),
        Err(_) => false,
    }
}

/// Returns the next part of a batch if each unit has succeeded or has not begun, one has not begun, and none has more than
/// `limit` requests. The part has a request.
fn next_part(
    alloc: Global,
    plan: &Plan<'_>,
    states: &[RequestState],
    limit: u32,
    answers: &[Recorded<'_>],
) -> Option<Found>
    requires states { length states.now ≡ length (plan_records plan.now) }
    requires answers { length answers.now ≡ length (plan_records plan.now) }
    ensures { IfSome result (λ found. HasSome (plan_records plan.now) (kept found.0)) }
{
    every_part();
    if !fits_limit(plan, limit) || !has_next(alloc, plan, states) {
        return None;
    }
    part_in(alloc, plan, states, limit, answers)
}

/// A batch, what has become of each request by a letter as in `crate::parts`, how many requests a part may have, the
/// positions of those of the next part, and whether a unit may go by what has become of all.
type Row = (&'static str, &'static str, u32, &'static [u32], bool);

const ROWS: &[Row] = &[
    (DIAMOND, "rwrw", 3, &[0, 1, 2], true),
    (DIAMOND, "srrw", 1, &[1], true),
    (DIAMOND, "sssr", 3, &[3], true),
    (DIAMOND, "ssss", 4, &[], false),
    (DIAMOND, "xwrw", 4, &[2], false),
    (DIAMOND, "sfr-", 4, &[2], false),
    (GROUP, "rrwr", 2, &[0], true),
    (GROUP, "srwr", 2, &[1, 2], true),
    (GROUP, "ssxr", 4, &[3], false),
    (GROUP, "srwr", 1, &[], false),
];

/// Whether a part has these requests.
fn has(found: &Option<Found>, positions: &[u32]) -> bool {
    match found {
        Some(found) => found.1.as_slice() == positions,
        None => false,
    }
}

/// The next part of the batch of a row, which has the requests of the row, whichever call makes it.
#[derive(Drop)]
struct NextPart<'a>(&'a Row);

impl NextPart<'_> {
    fn is_one(
        &self,
        alloc: Global,
        plan: &Plan<'_>,
        states: &[RequestState],
        answers: &[Recorded<'_>],
    ) -> bool
        requires states { length states.now ≡ length (plan_records plan.now) }
        requires answers { length answers.now ≡ length (plan_records plan.now) }
    {
        let both = part_twice(alloc, plan, states, self.0.2, answers);
        has(&both.0, self.0.3) && has(&both.1, self.0.3)
    }

    fn is_sound(
        &self,
        alloc: Global,
        plan: &Plan<'_>,
        states: &[RequestState],
        answers: &[Recorded<'_>],
    ) -> bool
        requires states { length states.now ≡ length (plan_records plan.now) }
        requires answers { length answers.now ≡ length (plan_records plan.now) }
    {
        has(
            &sound_part(alloc, plan, states, self.0.2, answers),
            self.0.3,
        )
    }

    fn is_next(
        &self,
        alloc: Global,
        plan: &Plan<'_>,
        states: &[RequestState],
        answers: &[Recorded<'_>],
    ) -> bool
        requires states { length states.now ≡ length (plan_records plan.now) }
        requires answers { length answers.now ≡ length (plan_records plan.now) }
    {
        let next = next_part(alloc, plan, states, self.0.2, answers);
        if self.0.4 {
            has(&next, self.0.3)
        } else {
            next.is_none()
        }
    }

    fn is_part(
        &self,
        alloc: Global,
        plan: &Plan<'_>,
        states: &[RequestState],
        answers: &[Recorded<'_>],
    ) -> bool {
        if states.len() != plan.len() as usize || answers.len() != plan.len() as usize {
            return false;
        }
        self.is_one(alloc, plan, states, answers)
            && self.is_sound(alloc, plan, states, answers)
            && self.is_next(alloc, plan, states, answers)
    }
}

impl OnPlan for NextPart<'_> {
    fn holds(&self, alloc: Global, plan: &Plan<'_>) -> bool {
        match moment_of(alloc, self.0.1, &[NONE, NONE, NONE, NONE]) {
            Ok((states, answers)) => self.is_part(alloc, plan, &states, &answers),
            Err(_) => false,
        }
    }
}

#[test]
fn a_part_has_what_may_go(rt: HostRuntime) -> Result<(), Fail> {
    for row in ROWS {
        if !holds_of(rt.alloc(), row.0, &NextPart(row)) {
            return Err(Fail::new(row.1));
        }
    }
    Ok(())
}

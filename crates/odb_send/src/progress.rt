//! Which units of a run have succeeded, and which may still be sent.

ghost use Rattle.std.specs.Prelude.{◌≡◌, ◌<◌, length, IfOk};
ghost use Rattle.odb_check.specs.Plans.{plan_records};
ghost use Rattle.odb_send.specs.NextPart.{has_succeeded, may_start, state_at};
ghost use Rattle.odb_send.specs.Units.{AreMarksOf, IsWhole};

use odb_check::Plan;
use odb_check::laws::every_plan;
use odb_doc::status::is_success;
use odb_sched::RequestState;
use std::alloc::{AllocError, Global};

/// Returns whether a request has succeeded.
fn has_succeeded(state: RequestState) -> bool
    ensures { result ≡ has_succeeded state }
{
    match state {
        RequestState::Reported(status) => is_success(status),
        _ => false,
    }
}

/// Returns whether a request has not started, and may still start.
fn may_start(state: RequestState) -> bool
    ensures { result ≡ may_start state }
{
    matches!(state, RequestState::Waiting | RequestState::Ready)
}

/// Returns for each unit whether all its requests have succeeded.
pub(crate) fn succeeded_units(
    alloc: Global,
    plan: &Plan<'_>,
    states: &[RequestState],
) -> Result<Vec<bool>, AllocError>
    requires { length states.now ≡ length (plan_records plan.now) }
    ensures { IfOk result (λ units. AreMarksOf (plan_records plan.now)
        (IsWhole (plan_records plan.now) (λ i. has_succeeded (state_at states.now i))) units.items) }
{
    every_plan(plan);
    plan.passing_units(
        alloc,
        |i|
            requires { i < length states.now }
            ensures { result ≡ has_succeeded (state_at states.entry.now i) }
        { has_succeeded(states[i as usize]) },
    )
}

/// Returns for each unit whether each of its requests may still start.
pub(crate) fn starting_units(
    alloc: Global,
    plan: &Plan<'_>,
    states: &[RequestState],
) -> Result<Vec<bool>, AllocError>
    requires { length states.now ≡ length (plan_records plan.now) }
    ensures { IfOk result (λ units. AreMarksOf (plan_records plan.now)
        (IsWhole (plan_records plan.now) (λ i. may_start (state_at states.now i))) units.items) }
{
    every_plan(plan);
    plan.passing_units(
        alloc,
        |i|
            requires { i < length states.now }
            ensures { result ≡ may_start (state_at states.entry.now i) }
        { may_start(states[i as usize]) },
    )
}

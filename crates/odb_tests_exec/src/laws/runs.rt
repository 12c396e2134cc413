//! Runs, starts, reports and answers: what the laws of the scheduler say of them.

ghost use Rattle.std.specs.Prelude.{◌≡◌, ◌≢◌, ◌<◌, ℕ, true, length, All, IfErr, IfSome, IsSome, OnOk, OnSome};
ghost use Rattle.odb_check.specs.Plans.{plan_records};
ghost use Rattle.odb_doc.specs.Statuses.{is_status};
ghost use Rattle.odb_sched.specs.run.Answers.{HasStatuses};
ghost use Rattle.odb_sched.specs.run.Steps.{BarsStart, is_finished};
ghost use Rattle.odb_sched.specs.run.Laws.{HasFewEvents, HasOneResult, HasResultByStatuses, AgreesWithTable, HaveSucceeded, IsAllOrNone, IsNeverStuck, RestsOnSuccesses, StartsAfterDependencies};
ghost use Rattle.odb_sched.specs.run.Runs.{event_position, phase_of};
ghost use Rattle.odb_sched.specs.run.State.{initial, phase_at, size};
ghost use Rattle.odb_sched.specs.run.Units.{FirstNeedsNothing, HasNextUnit, UnitsGoOn};
ghost use Rattle.odb_sched.specs.declared.policy.Mode.TheVariants.{Continue};
ghost use Rattle.odb_sched.specs.declared.refusal.StartRefusal.TheVariants.{WidthReached};

use odb_check::Plan;
use odb_doc::Outcome;
use odb_sched::laws::{
    definitions_agree, every_cause, every_result, every_run, every_start, every_unit,
};
use odb_sched::{Event, OwnedRun, Policy, ReportRefusal, Scheduler, StartRefusal, run};
use std::alloc::Global;

/// Returns the state of a run after these events.
fn ran<'a: 'p, 'p>(
    alloc: Global,
    plan: &'p Plan<'a>,
    policy: Policy,
    events: Vec<Event>,
) -> Option<Scheduler<'p>>
    requires { All (λ event. event_position event < length (plan_records plan.now)) events.items }
    ensures dependencies_first { OnSome result (StartsAfterDependencies (plan_records plan.now) events.items) }
    ensures few_events { OnSome result (HasFewEvents events.items) }
    ensures never_stuck { IfSome result (λ state. IsNeverStuck state) }
    ensures phases { IfSome result (λ state. (i : ℕ) → phase_at state i ≡ phase_of i events.items) }
    ensures agrees_with_table { IfSome result (λ state. AgreesWithTable state) }
    ensures all_or_none { IfSome result (λ state. IsAllOrNone state) }
    ensures rests_on_successes { IfSome result (λ state. RestsOnSuccesses state) }
    ensures statuses { IfSome result (λ state. HasStatuses state) }
    ensures one_result { IfSome result (λ state. policy.mode ≡ Continue
        → is_finished state ≡ true → HasOneResult state) }
    ensures by_statuses { IfSome result (λ state. policy.mode ≡ Continue
        → is_finished state ≡ true → HasResultByStatuses state) }
{
    every_run(plan);
    definitions_agree(plan);
    every_result(plan);
    match run(alloc, plan, policy, events) {
        Ok(state) => Some(state),
        Err(_) => None,
    }
}

/// Returns the state of a run after these events. Its units go on, and so do those that are performed as a whole.
fn ran_by_units<'a: 'p, 'p>(
    alloc: Global,
    plan: &'p Plan<'a>,
    policy: Policy,
    events: Vec<Event>,
) -> Option<Scheduler<'p>>
    requires { All (λ event. event_position event < length (plan_records plan.now)) events.items }
    ensures first { IfSome result (λ state. FirstNeedsNothing state) }
    ensures goes_on { IfSome result (λ state. UnitsGoOn state) }
    ensures next { IfSome result (λ state. HasNextUnit state) }
{
    every_unit(plan);
    match run(alloc, plan, policy, events) {
        Ok(state) => Some(state),
        Err(_) => None,
    }
}

/// Starts a request twice.
fn started_twice(
    state: &mut Scheduler<'_>,
    i: u32,
) -> (Result<(), StartRefusal>, Result<(), StartRefusal>)
    requires { i < size state.old }
    ensures ok { OnOk result.0 ((cause : StartRefusal) → ¬ BarsStart cause state.old i) }
    ensures one { IfErr result.0 (λ cause. IfErr result.1 (λ other. cause ≡ other)) }
{
    every_cause();
    let first = state.start(i);
    let second = state.start(i);
    (first, second)
}

/// Reports an outcome twice, and returns both refusals.
fn refused_twice(
    state: &mut Scheduler<'_>,
    i: u32,
    outcome: Outcome,
) -> Option<(ReportRefusal, ReportRefusal)>
    requires { i < size state.old }
    ensures { IfSome result (λ both. both.0 ≡ both.1) }
{
    every_cause();
    let Err((cause, back)) = state.report(i, outcome) else {
        return None;
    };
    let Err((other, _)) = state.report(i, back) else {
        return None;
    };
    Some((cause, other))
}

/// Starts a request of a new run. A policy of the greatest width does not bar it.
fn started_first(
    alloc: Global,
    plan: &Plan<'_>,
    policy: Policy,
    i: u32,
) -> Option<Result<(), StartRefusal>>
    ensures first { IfSome result (λ it. OnOk it (HaveSucceeded (plan_records plan.now)
        (initial plan.now policy) i)) }
    ensures free { policy.width ≡ 10000
        → IfSome result (λ it. IfErr it (λ cause. cause ≢ WidthReached)) }
{
    every_start(plan);
    if i >= plan.len() {
        return None;
    }
    match Scheduler::new(alloc, plan, policy) {
        Ok(mut state) => Some(state.start(i)),
        Err(_) => None,
    }
}

/// Returns the status that a request is answered, if the run is finished: one from 200 to 599. It rests on
/// successes alone if it is one.
fn answered(run: &OwnedRun, i: u32) -> Option<u16>
    requires { i < size run.now }
    ensures status { IfSome result (λ status. is_status status ≡ true) }
    ensures rests_on_successes { IsSome result → RestsOnSuccesses run.now }
{
    if !run.is_finished() {
        return None;
    }
    run.laws();
    Some(run.answer(i).status())
}

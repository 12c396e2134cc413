//! An execution of a plan: its chooser, its service, its steps, and its faults.

ghost use Rattle.std.specs.Prelude.{◌≡◌, ◌≢◌, ◌<◌, ◌≤◌, ◌+◌, ◌*◌, ℕ, true, [], length, Result, IfOk, IfErr, OnOk, Option, IfSome, IsSome, None, Some, Ok, Err, All};
ghost use Rattle.odb_doc.specs.declared.fault.Place.TheVariants.{Request};
ghost use Rattle.odb_exec.specs.Faults.{exec_row};
ghost use Rattle.odb_exec.specs.declared.execution.ExecFault.TheVariants.{OutOfMemory};
ghost use Rattle.std.specs.Vec.{vec_capacity};
ghost use Rattle.odb_check.specs.Plans.{plan_records};
ghost use Rattle.odb_sched.specs.declared.policy.Mode.TheVariants.{Continue};
ghost use Rattle.odb_exec.specs.declared.execution.ExecFault.TheVariants as faults;
ghost use Rattle.odb_sched.specs.declared.event.Step.TheVariants as kinds;
ghost use Rattle.odb_sched.specs.run.State.{size, initial};
ghost use Rattle.odb_sched.specs.run.Steps.{is_finished};
ghost use Rattle.odb_sched.specs.run.Choosing.{Positions, positions_of, position_in, ready_set, running_set, MayTake, IsNext};
ghost use Rattle.odb_exec.specs.Choices.{IsAmong};
ghost use Rattle.odb_exec.specs.Calls.{Behind, Picks, IsExecution, IsCutShort, IsBrokenOff, Faults};
ghost use Rattle.odb_exec.specs.Courses.{IsReportEnabled, IsCausedBy};
ghost use Rattle.odb_exec.specs.Advances.{IsTakenBy};
ghost use Rattle.odb_sched.specs.run.Answers.{reported};
ghost use Rattle.odb_sched.specs.run.Laws as laws;

use crate::chooser::{Choice, Chooser};
use crate::service::{Service, ServiceFault};
use odb_check::Plan;
use odb_doc::{Fault, Outcome, Place, Refusal};
use odb_sched::laws::every_run;
use odb_sched::{Done, Policy, ReportRefusal, Scheduler, Step};
use std::alloc::{AllocError, Global};
use thiserror::Error;

/// Why an execution could not be completed. Each names the position of a request, counted from 0,
/// whose report was chosen.
#[derive(Clone, Copy, Debug, PartialEq, Eq, Error)]
pub enum ExecFault {
    /// F80: the service has no outcome for it.
    #[error("request {0}: there is no outcome")]
    NoOutcome(u32),
    /// F81: the service failed.
    #[error("request {0}: the service failed")]
    Service(u32),
    /// F82: the service returned a status that is not from 200 to 599.
    #[error("request {0}: the status is not from 200 to 599")]
    BadStatus(u32),
    /// Allocation failed, here or in the service. That says nothing of the requests.
    #[error("out of memory")]
    OutOfMemory,
}

impl Fault for ExecFault {
    ghost row = { exec_row };

    fn refusal(&self) -> Option<Refusal> {
        match *self {
            ExecFault::NoOutcome(i) => Some(Refusal::new(("F80", "NoOutcome"), request_at(i))),
            ExecFault::Service(i) => Some(Refusal::new(("F81", "Service"), request_at(i))),
            ExecFault::BadStatus(i) => Some(Refusal::new(("F82", "BadStatus"), request_at(i))),
            ExecFault::OutOfMemory => None,
        }
    }
}

/// Returns the place of the request at this position of its batch.
fn request_at(i: u32) -> Place
    ensures { result ≡ Request i }
{
    Place::Request(i as usize)
}

impl From<AllocError> for ExecFault {
    ghost from_gives = { λ _ fault. fault ≡ OutOfMemory };

    fn from(_error: AllocError) -> Self {
        ExecFault::OutOfMemory
    }
}

/// A finished execution: its answers, and its steps.
#[derive(Drop)]
pub struct Trace<'p> {
    /// The run as it ended.
    pub done: Done<'p>,
    /// The steps in their order.
    pub steps: Vec<Step>,
}

/// Returns the step that the chooser picks among the ready and the running positions.
fn pick(chooser: &mut dyn Chooser, ready: &[u32], running: &[u32]) -> Step
    requires { 0 < length ready.now + length running.now }
    ensures among { IsAmong ready.now running.now result }
    ensures allowed { allows chooser.old (positions_of ready.now) (positions_of running.now)
        result }
    ensures chosen { Behind chooses chooser.old (positions_of ready.now)
        (positions_of running.now) result chooser.new }
    ensures narrows { (ready running : Positions) (step : Step)
        → allows chooser.new ready running step → allows chooser.old ready running step }
{
    match chooser.choose(ready, running) {
        Choice::Start(place) => Step::Start(ready[place]),
        Choice::Report(place) => Step::Report(running[place]),
    }
}

/// Returns the next step that the chooser picks, or `None` if the run is finished.
fn next_choice(scheduler: &Scheduler<'_>, chooser: &mut dyn Chooser) -> Option<Step>
    ensures finished { result ≡ None → is_finished scheduler.now ≡ true }
    ensures next { IfSome result (IsNext (allows chooser.old) scheduler.now) }
    ensures chosen { IfSome result (λ step. Behind chooses chooser.old (ready_set scheduler.now)
        (running_set scheduler.now) step chooser.new) }
    ensures unasked { result ≡ None → chooser.new ≡ chooser.old }
    ensures narrows { (ready running : Positions) (step : Step)
        → allows chooser.new ready running step → allows chooser.old ready running step }
{
    if scheduler.is_finished() {
        return None;
    }
    Some(pick(chooser, scheduler.ready(), scheduler.running()))
}

/// Returns the next step, or `None` if the run is finished. A chooser that names an order is not
/// asked.
fn next_step(scheduler: &mut Scheduler<'_>, chooser: &mut dyn Chooser) -> Option<Step>
    ensures same { scheduler.new ≡ scheduler.old }
    ensures finished { result ≡ None → is_finished scheduler.old ≡ true }
    ensures next { IfSome result (IsNext (allows chooser.old) scheduler.old) }
    ensures picked { IfSome result (λ step. Picks (Behind chooses) (names chooser.old)
        scheduler.old step chooser.old chooser.new) }
    ensures unasked { result ≡ None → chooser.new ≡ chooser.old }
    ensures narrows { (ready running : Positions) (step : Step)
        → allows chooser.new ready running step → allows chooser.old ready running step }
{
    match chooser.order() {
        Some(order) => scheduler.next_in(order),
        None => next_choice(scheduler, chooser),
    }
}

/// Returns the fault of a request whose outcome is not accepted.
fn bad_status(i: u32, _refused: (ReportRefusal, Outcome)) -> ExecFault
    ensures { result ≡ faults.BadStatus i }
{
    ExecFault::BadStatus(i)
}

/// Asks the service for the outcome of a running request, and reports it.
fn report<S: Service>(
    scheduler: &mut Scheduler<'_>,
    plan: &Plan<'_>,
    service: &mut S,
    i: u32,
) -> Result<(), ExecFault>
    requires request { i < length (plan_records plan.now) }
    requires within { i < size scheduler.old }
    requires may { MayTake scheduler.old (kinds.Report i) }
    ensures taken { OnOk result (IsTakenBy S.performs (plan_records plan.now)
        (S.offers service.old) scheduler.old scheduler.new service.old service.new
        (kinds.Report i)) }
    ensures narrows { (j : ℕ) (answer : Result Outcome ServiceFault) → j ≢ i
        → S.offers service.new j answer → S.offers service.old j answer }
    ensures fault { IfErr result (IsCausedBy (S.offers service.old) (λ j. j ≡ i)) }
    ensures faulty { IfErr result (λ cause. Faults S.performs (plan_records plan.now)
        (λ j. j ≡ i) cause service.old service.new) }
{
    let outcome = match service.perform(i, plan.request(i)) {
        Ok(outcome) => outcome,
        Err(ServiceFault::NoOutcome) => return Err(ExecFault::NoOutcome(i)),
        Err(ServiceFault::Failed) => return Err(ExecFault::Service(i)),
        Err(ServiceFault::OutOfMemory) => return Err(ExecFault::OutOfMemory),
    };
    match scheduler.report(i, outcome) {
        Ok(()) => Ok(()),
        Err(refused) => Err(bad_status(i, refused)),
    }
}

/// Takes a step that may be taken.
fn take<S: Service>(
    scheduler: &mut Scheduler<'_>,
    plan: &Plan<'_>,
    service: &mut S,
    step: Step,
) -> Result<(), ExecFault>
    requires request { position_in step < length (plan_records plan.now) }
    requires within { position_in step < size scheduler.old }
    requires may { MayTake scheduler.old step }
    ensures taken { OnOk result (IsTakenBy S.performs (plan_records plan.now)
        (S.offers service.old) scheduler.old scheduler.new service.old service.new step) }
    ensures narrows { (j : ℕ) (answer : Result Outcome ServiceFault) → (step ≡ kinds.Report j → ⊥)
        → S.offers service.new j answer → S.offers service.old j answer }
    ensures fault { IfErr result (IsCausedBy (S.offers service.old) (λ j. step ≡ kinds.Report j)) }
    ensures faulty { IfErr result (λ cause. Faults S.performs (plan_records plan.now)
        (λ j. step ≡ kinds.Report j) cause service.old service.new) }
{
    match step {
        Step::Start(i) => {
            scheduler.start(i).unwrap();
            Ok(())
        }
        Step::Report(i) => report(scheduler, plan, service, i),
    }
}

/// Takes the steps that the chooser picks, from the first to the last of the run, and lists them.
fn take_all<S: Service>(
    scheduler: &mut Scheduler<'_>,
    plan: &Plan<'_>,
    chooser: &mut dyn Chooser,
    service: &mut S,
    steps: &mut Vec<Step>,
) -> Result<(), ExecFault>
    requires first { scheduler.old ≡ initial plan.now scheduler.old.policy }
    requires unlisted { steps.old.items ≡ [] }
    requires room { 2 * length (plan_records plan.now) ≤ vec_capacity steps.old }
    ensures execution { OnOk result (IsExecution (allows chooser.old) (S.offers service.old)
        S.performs (Behind chooses) names (plan_records plan.now)
        (initial plan.now scheduler.old.policy) service.old service.new chooser.old chooser.new
        steps.new.items scheduler.new) }
    ensures cut_short { IfErr result (IsCutShort (allows chooser.old) (S.offers service.old)
        S.performs (Behind chooses) names (plan_records plan.now)
        (initial plan.now scheduler.old.policy) service.old service.new chooser.old chooser.new) }
    ensures finished { OnOk result (is_finished scheduler.new ≡ true) }
    ensures few_steps { OnOk result
        (length steps.new.items ≤ 2 * length (plan_records plan.now)) }
    ensures policy { OnOk result (scheduler.new.policy ≡ scheduler.old.policy) }
    ensures fault { IfErr result (IsCausedBy (S.offers service.old)
        (IsReportEnabled (allows chooser.old) (S.offers service.old)
        (initial plan.now scheduler.old.policy))) }
{
    every_run(plan);
    odb_check::laws::every_plan(plan);
    while let Some(step) = next_step(scheduler, chooser) {
        take(scheduler, plan, service, step)?;
        steps.push(step).unwrap();
    }
    Ok(())
}

/// Returns the run before its first step, with room for all its steps.
fn prepared<'a: 'p, 'p>(
    alloc: Global,
    plan: &'p Plan<'a>,
    policy: Policy,
) -> Result<(Scheduler<'p>, Vec<Step>), AllocError>
    ensures first { IfOk result (λ run. run.0 ≡ initial plan.now policy) }
    ensures unlisted { IfOk result (λ run. run.1.items ≡ []) }
    ensures room { IfOk result (λ run. 2 * length (plan_records plan.now) ≤ vec_capacity run.1) }
{
    let steps = Vec::with_capacity(alloc, 2 * plan.len() as usize)?;
    Ok((Scheduler::new(alloc, plan, policy)?, steps))
}

/// Runs a plan to its end. The chooser picks each step, and the service returns the outcome of a
/// request when its report is chosen (OData JSON Format 4.01, section 19.4; OData Protocol 4.01,
/// section 11.7).
///
/// A run has at most two steps per request, and memory for all of them is reserved before the first. A
/// run cannot deadlock, so there is no fault for that. The service is asked once for each report, and
/// for nothing else, as far as its relation `performs` distinguishes calls
/// ([`crate::laws::every_call`]). The chooser is asked once for each step before which it names no
/// order, and for nothing else, as far as its relation `chooses` does.
///
/// Example: `answer` in crates/odb_tests_engine/src/examples.rt.
///
/// # Errors
///
/// F80, F81 or F82 for the request whose report was chosen, if the service has no outcome for it,
/// failed, or returned a status that is not from 200 to 599. `OutOfMemory` if allocation failed: here,
/// and then chooser and service are as they were; or in the service. After another fault chooser and
/// service keep the effects of the calls so far.
pub fn execute<'a: 'p, 'p, S: Service>(
    alloc: Global,
    plan: &'p Plan<'a>,
    policy: Policy,
    chooser: &mut dyn Chooser,
    service: &mut S,
) -> Result<Trace<'p>, ExecFault>
    ensures execution { IfOk result (λ trace. IsExecution (allows chooser.old)
        (S.offers service.old) S.performs (Behind chooses) names (plan_records plan.now)
        (initial plan.now policy) service.old service.new chooser.old chooser.new
        trace.steps.items trace.done) }
    ensures broken_off { IfErr result (IsBrokenOff (allows chooser.old) (S.offers service.old)
        S.performs (Behind chooses) names (plan_records plan.now) (initial plan.now policy)
        service.old service.new chooser.old chooser.new) }
    ensures unasked { IsSome (names chooser.old) → chooser.new ≡ chooser.old }
    ensures plan { IfOk result (λ trace. trace.done.requests ≡ plan_records plan.now) }
    ensures within { IfOk result (λ trace.
        All (λ step. position_in step < size trace.done) trace.steps.items) }
    ensures offered { IfOk result (λ trace. (i : ℕ) (outcome : Outcome)
        → reported trace.done i ≡ Some outcome → S.offers service.old i (Ok outcome)) }
    ensures few_steps { IfOk result (λ trace.
        length trace.steps.items ≤ 2 * length (plan_records plan.now)) }
    ensures fault { IfErr result (IsCausedBy (S.offers service.old) (IsReportEnabled (allows chooser.old)
        (S.offers service.old) (initial plan.now policy))) }
    ensures one_result { policy.mode ≡ Continue
        → IfOk result (λ trace. laws.HasOneResult trace.done) }
    ensures agrees_with_table { IfOk result (λ trace. laws.AgreesWithTable trace.done) }
    ensures all_or_none { IfOk result (λ trace. laws.IsAllOrNone trace.done) }
    ensures rests_on_successes { IfOk result (λ trace. laws.RestsOnSuccesses trace.done) }
{
    let (mut scheduler, mut steps) = prepared(alloc, plan, policy)?;
    take_all(&mut scheduler, plan, chooser, service, &mut steps)?;
    Ok(Trace {
        done: scheduler.close(),
        steps,
    })
}

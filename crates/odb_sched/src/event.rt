//! Events of a run, recorded events, and steps: events without their outcomes.

ghost use Rattle.std.specs.Prelude.{◌≡◌, ◌≢◌, ◌<◌, [], true, length, All, Err, OnErr, OnOk, IfOk, IfErr, IsErr, List, Some};
ghost use Rattle.odb_check.specs.Plans.{plan_records};
ghost use Rattle.odb_sched.specs.run.State as state;
ghost use Rattle.odb_sched.specs.run.Steps.{may_come};
ghost use Rattle.odb_sched.specs.run.Runs.{event_position, after_all, IsRunFrom, IsRun, state_after, RefusesEvent, Refuses};
ghost use Rattle.odb_sched.specs.run.Taking.{TakesUpTo};
ghost use Rattle.odb_sched.specs.run.Laws.{StartsAfterDependencies, HasFewEvents};
ghost use Rattle.std.specs.List.{AllZip};
ghost use Rattle.odb_doc.specs.recorded.EventLists.{entries};
ghost use Rattle.odb_doc.specs.recorded.Events.{event_value};
ghost use Rattle.odb_doc.specs.batch.Records.{Record};
ghost use Rattle.odb_check.specs.Positions.{id_at};
ghost use Rattle.odb_doc.specs.declared.rule_fault.RuleFault.TheVariants.{Broken, OutOfMemory};
ghost use Rattle.odb_sched.specs.declared.event.ResolveRule.TheVariants.{UnknownEvent};
ghost use Rattle.odb_sched.specs.run.Refusals.{resolve_rule_row};
ghost use Rattle.odb_sched.specs.run.Resolving.{IsKnown, IsResolved, RefusesNamed, named_id};

use crate::laws::every_run;
use crate::policy::Policy;
use crate::refusal::RunRefusal;
use crate::scheduler::Scheduler;
use odb_check::Plan;
use odb_doc::{Disposal, Events, NamedEvent, Outcome, Place, Refusal, Rule, RuleFault};
use std::alloc::Global;
use thiserror::Error;

/// An event of a run, at the position of its request, counted from 0.
#[derive(Debug, Drop)]
pub enum Event {
    /// The request is sent.
    Start(u32),
    /// The request has ended with this outcome.
    Report(u32, Outcome),
}

/// Takes the event at index `at` of its list, if it may come. Else the run is unchanged.
fn take(scheduler: &mut Scheduler<'_>, at: usize, event: Event) -> Result<(), RunRefusal>
    requires { event_position event < state.size scheduler.old }
    ensures allowed { OnOk result (may_come scheduler.old event ≡ true) }
    ensures state { OnOk result (scheduler.new ≡ state.after scheduler.old event) }
    ensures refused { IfErr result (RefusesEvent scheduler.old at event) }
    ensures err { OnErr result (scheduler.new ≡ scheduler.old) }
{
    match event {
        Event::Start(i) => match scheduler.start(i) {
            Ok(()) => Ok(()),
            Err(cause) => Err(RunRefusal::Start { at, cause }),
        },
        Event::Report(i, outcome) => match scheduler.report(i, outcome) {
            Ok(()) => Ok(()),
            Err((cause, _)) => Err(RunRefusal::Report { at, cause }),
        },
    }
}

impl Scheduler<'_> {
    /// Takes these events in their order, up to the first that may not come.
    ///
    /// Costs O(events + requests + dependencies), and allocates nothing.
    ///
    /// # Errors
    ///
    /// `Start` or `Report` for the first event that may not come: its place, and the least of the causes
    /// S1 to S5 or P1 and P2 that bar it. The run has taken the events before it. Never `OutOfMemory`.
    pub fn take_all(&mut self, events: Vec<Event>) -> Result<(), RunRefusal>
        requires { All (λ event. event_position event < state.size self.old) events.items }
        ensures run { OnOk result (IsRunFrom self.old events.items) }
        ensures state { OnOk result (self.new ≡ after_all self.old events.items) }
        ensures refused { IfErr result (Refuses self.old events.items) }
        ensures memory { result ≢ Err RunRefusal.OutOfMemory }
        ensures taken { IfErr result (λ cause. TakesUpTo self.old events.items cause self.new) }
    {
        for (at, event) in events.into_iter().enumerate() {
            take(self, at, event)?;
        }
        Ok(())
    }
}

/// Runs a plan by these events, in their order: takes them all in a new scheduler.
///
/// Example: `recorded` in crates/odb_tests_text/src/examples.rt.
///
/// # Errors
///
/// Those of [`Scheduler::take_all`]; `OutOfMemory` if [`Scheduler::new`] cannot allocate its memory, as
/// events need none.
pub fn run<'a: 'p, 'p>(
    alloc: Global,
    plan: &'p Plan<'a>,
    policy: Policy,
    events: Vec<Event>,
) -> Result<Scheduler<'p>, RunRefusal>
    requires { All (λ event. event_position event < length (plan_records plan.now)) events.items }
    ensures run { OnOk result (IsRun plan.now policy events.items) }
    ensures state { IfOk result (λ scheduler. scheduler
        ≡ state_after plan.now policy events.items) }
    ensures refused { IfErr result (Refuses
        (state.initial plan.now policy) events.items) }
    ensures dependencies_first { OnOk result (StartsAfterDependencies (plan_records plan.now) events.items) }
    ensures few_events { OnOk result (HasFewEvents events.items) }
{
    every_run(plan);
    let mut scheduler = Scheduler::new(alloc, plan, policy)?;
    scheduler.take_all(events)?;
    Ok(scheduler)
}

/// A step of an execution, at the position of a request, counted from 0: an event without its
/// outcome.
#[derive(Clone, Copy, Debug, PartialEq, Eq)]
pub enum Step {
    /// The request was sent.
    Start(u32),
    /// The service was asked for the outcome of the request.
    Report(u32),
}

/// A rule that recorded events break if they are not events of a batch.
#[derive(Clone, Copy, Debug, PartialEq, Eq, Error)]
pub enum ResolveRule {
    /// F65: the batch has no request with the id of the event.
    #[error("the batch has no such request")]
    UnknownEvent,
}

/// Why recorded events are not events of a batch: the event at an index breaks a rule.
pub type ResolveFault = RuleFault<ResolveRule>;

impl Rule for ResolveRule {
    ghost prints = { resolve_rule_row };

    fn refusal(self, at: usize) -> Refusal {
        match self {
            ResolveRule::UnknownEvent => Refusal::new(("F65", "UnknownEvent"), Place::Event(at)),
        }
    }
}

/// Returns the id that the event names.
fn id_of(event: &NamedEvent) -> &str
    ensures { result.now ≡ named_id (event_value event.now) }
{
    match event {
        NamedEvent::Start(id) | NamedEvent::Report(id, _) => id.as_str(),
    }
}

/// Returns the event at the position of its request, and drops or leaks its id.
fn at_position(event: NamedEvent, i: u32, disposal: Disposal) -> Event
    ensures place { event_position result ≡ i }
    ensures same { (batch : List Record) → id_at batch i ≡ Some (named_id (event_value event))
        → IsResolved batch (event_value event) result }
{
    match event {
        NamedEvent::Start(id) => {
            disposal.end(id);
            Event::Start(i)
        }
        NamedEvent::Report(id, outcome) => {
            disposal.end(id);
            Event::Report(i, outcome)
        }
    }
}

/// Returns the event at index `at` of its list, at the position of its request.
fn resolved(
    plan: &Plan<'_>,
    at: usize,
    event: NamedEvent,
    disposal: Disposal,
) -> Result<Event, ResolveFault>
    ensures resolved { IfOk result (IsResolved (plan_records plan.now) (event_value event)) }
    ensures within { IfOk result (λ found. event_position found < length (plan_records plan.now)) }
    ensures place { IfErr result (λ fault. fault ≡ Broken at UnknownEvent) }
    ensures unknown { IsErr result → ¬ IsKnown (plan_records plan.now) (event_value event) }
{
    // A run that starts and reports one request after the other has two events for each.
    match plan.position_near(at / 2, id_of(&event)) {
        Some(i) => Ok(at_position(event, i, disposal)),
        None => Err(ResolveFault::Broken {
            at,
            rule: ResolveRule::UnknownEvent,
        }),
    }
}

/// Returns the events by the positions of their requests, in their order. The outcomes are moved.
///
/// Costs O(number of events).
///
/// Example: `recorded` in crates/odb_tests_text/src/examples.rt.
///
/// # Errors
///
/// F65 for the first event whose id the plan does not have; `OutOfMemory` if an allocation fails, which
/// no events need.
pub fn resolve(alloc: Global, plan: &Plan<'_>, events: Events) -> Result<Vec<Event>, ResolveFault>
    ensures known { OnOk result (All (IsKnown (plan_records plan.now)) (entries events)) }
    ensures events { IfOk result (λ found. AllZip (IsResolved (plan_records plan.now))
        (entries events) found.items) }
    ensures within { IfOk result (λ found. All (λ event. event_position event
        < length (plan_records plan.now)) found.items) }
    ensures least { IfErr result (λ fault. RefusesNamed fault (plan_records plan.now)
        (entries events)) }
    ensures memory { result ≡ Err OutOfMemory → entries events ≢ [] }
{
    resolve_with(alloc, plan, events, Disposal::Drop)
}

/// Returns what [`resolve`] returns. The ids of the events are dropped or leaked.
///
/// # Errors
///
/// Those of [`resolve`].
pub fn resolve_with(
    alloc: Global,
    plan: &Plan<'_>,
    events: Events,
    disposal: Disposal,
) -> Result<Vec<Event>, ResolveFault>
    ensures known { OnOk result (All (IsKnown (plan_records plan.now)) (entries events)) }
    ensures events { IfOk result (λ found. AllZip (IsResolved (plan_records plan.now))
        (entries events) found.items) }
    ensures within { IfOk result (λ found. All (λ event. event_position event
        < length (plan_records plan.now)) found.items) }
    ensures least { IfErr result (λ fault. RefusesNamed fault (plan_records plan.now)
        (entries events)) }
    ensures memory { result ≡ Err OutOfMemory → entries events ≢ [] }
{
    let mut found = Vec::with_capacity(alloc, events.len())?;
    for event in events.into_vec() {
        let next = resolved(plan, found.len(), event, disposal)?;
        found.push(next)?;
    }
    Ok(found)
}

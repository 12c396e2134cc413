//! What is true of every run of a plan, under each policy, and whatever is reported
//! (OData JSON Format 4.01, sections 19.1 and 19.4; OData Protocol 4.01, section 11.7).
//!
//! The laws are clauses of functions that change nothing. They are stated of lists of events, by the
//! relations that the clauses of the scheduler use.

ghost use Rattle.std.specs.Prelude.{◌≡◌, ℕ, ◌<◌, ◌≤◌, ◌↔◌, Bool, true, List, length, IsTrue};
ghost use Rattle.odb_doc.specs.declared.recorded.outcome.Outcome.{Outcome};
ghost use Rattle.odb_check.specs.Plans.{plan_records};
ghost use Rattle.odb_sched.specs.declared.policy.Mode.TheVariants.{Continue};
ghost use Rattle.odb_sched.specs.declared.policy.Mode.{Mode};
ghost use Rattle.odb_sched.specs.declared.policy.Policy.{Policy};
ghost use Rattle.odb_sched.specs.declared.event.Event.{Event};
ghost use Rattle.odb_sched.specs.declared.refusal.StartRefusal.{StartRefusal};
ghost use Rattle.odb_sched.specs.declared.refusal.StartRefusal.TheVariants.{WidthReached};
ghost use Rattle.odb_sched.specs.declared.refusal.ReportRefusal.{ReportRefusal};
ghost use Rattle.odb_sched.specs.declared.refusal.RunRefusal.{RunRefusal};
ghost use Rattle.odb_sched.specs.run.Refusals as refusals;
ghost use Rattle.odb_doc.specs.recorded.Events.{EventValue};
ghost use Rattle.odb_sched.specs.run.Refusals.{ResolveFault};
ghost use Rattle.odb_sched.specs.run.Resolving.{RefusesNamed};
ghost use Rattle.odb_sched.specs.run.State.{State, size, plan_graph, phase_at, initial};
ghost use Rattle.odb_sched.specs.run.Failing.{Fails, fails};
ghost use Rattle.odb_sched.specs.run.Steps.{may_start, may_report, is_finished, BarsStart, IsStartCause, BarsReport, IsReportCause};
ghost use Rattle.odb_sched.specs.run.Runs.{IsRun, state_after, phase_of, Refuses};
ghost use Rattle.odb_sched.specs.run.Laws.{HaveSucceeded, StartsAfterDependencies, IsNeverStuck, HasFewEvents, HasOneResult, HasResultByStatuses, AgreesWithTable, IsAllOrNone, RestsOnSuccesses, SucceedsByMembers};
ghost use Rattle.odb_sched.specs.run.Possible.{IsPossible, HasRun};
ghost use Rattle.odb_sched.specs.run.Units.{FirstNeedsNothing, HasNextUnit, UnitsGoOn};
ghost use Rattle.odb_doc.specs.batch.Records.{Record};
ghost use Rattle.odb_sched.specs.run.Answers.{HasStatuses};

mod live;

pub use live::{every_live_run, every_possible_live};
use odb_check::Plan;
use odb_check::laws::every_plan;

/// No request starts before all that it names has ended with success. A run that is not finished
/// has a running or a ready request, and no request has more than a start and a report.
pub fn every_run(plan: &Plan<'_>)
    ensures dependencies_first { (policy : Policy) (events : List Event)
        → IsRun plan.now policy events
        → StartsAfterDependencies (plan_records plan.now) events }
    ensures never_stuck { (policy : Policy) (events : List Event)
        → IsRun plan.now policy events
        → IsNeverStuck (state_after plan.now policy events) }
    ensures few_events { (policy : Policy) (events : List Event)
        → IsRun plan.now policy events
        → HasFewEvents events }
{
    every_plan(plan);
}

/// A request may start only once all that it names has succeeded. At a width of 10,000 no start is
/// refused because of the width.
pub fn every_start(plan: &Plan<'_>)
    ensures dependencies_first { (state : State) (i : ℕ) → state.plan_graph ≡ plan_graph plan.now
        → may_start state i ≡ true
        → HaveSucceeded (plan_records plan.now) state i }
    ensures free { (state : State) (i : ℕ) → state.plan_graph ≡ plan_graph plan.now
        → length state.phases ≡ size state → i < size state → 10000 ≤ state.policy.width
        → ¬ IsStartCause state i WidthReached }
{
    every_plan(plan);
}

/// Units that are performed as a whole, one after another or several at once, do not get stuck. Of the
/// units that are neither over nor failed, the first needs nothing more of other units. If a unit needs
/// nothing more of other units, has not failed and is not over, then one of its members is running or may
/// start, unless the run is stopped or the width is used up. So a run that is not finished, in which nothing
/// is running and each unit that has begun is over or has failed, has a unit that may begin.
pub fn every_unit(plan: &Plan<'_>)
    ensures first { (policy : Policy) (events : List Event)
        → IsRun plan.now policy events
        → FirstNeedsNothing (state_after plan.now policy events) }
    ensures goes_on { (policy : Policy) (events : List Event)
        → IsRun plan.now policy events
        → UnitsGoOn (state_after plan.now policy events) }
    ensures next { (policy : Policy) (events : List Event)
        → IsRun plan.now policy events
        → HasNextUnit (state_after plan.now policy events) }
{
    every_plan(plan);
}

/// A start or a report may come if and only if no cause bars it, S1 to S5 or P1 and P2. Of the causes
/// that bar one, a single one is the first. A list of events that is not a run is refused at one place
/// for one cause, and recorded events have one first event whose id is not in the batch.
pub fn every_cause()
    ensures start { (state : State) (i : ℕ) → IsTrue (may_start state i)
        ↔ ((cause : StartRefusal) → ¬ BarsStart cause state i) }
    ensures report { (state : State) (i : ℕ) (outcome : Outcome)
        → IsTrue (may_report state i outcome)
        ↔ ((cause : ReportRefusal) → ¬ BarsReport cause state i outcome) }
    ensures one_start { (state : State) (i : ℕ) (cause other : StartRefusal)
        → IsStartCause state i cause → IsStartCause state i other → cause ≡ other }
    ensures one_report { (state : State) (i : ℕ) (outcome : Outcome) (cause other : ReportRefusal)
        → IsReportCause state i outcome cause → IsReportCause state i outcome other
        → cause ≡ other }
    ensures one_refusal { (state : State) (events : List Event) (cause other : RunRefusal)
        → refusals.IsNumberedRefusal cause → refusals.IsNumberedRefusal other
        → Refuses state events cause → Refuses state events other → cause ≡ other }
    ensures one_unknown { (requests : List Record) (events : List EventValue)
        (fault other : ResolveFault) → refusals.IsNumberedResolve fault → refusals.IsNumberedResolve other
        → RefusesNamed fault requests events → RefusesNamed other requests events
        → fault ≡ other }
{}

/// In the mode `Continue`, the successes of a finished run are those of each table of outcomes that its
/// reports agree with, and which requests they answer depends on the statuses alone. Under each policy
/// the answers of a group are all successes or none is, a success depends on successes alone, and each
/// status that a request reported is from 200 to 599.
pub fn every_result(plan: &Plan<'_>)
    ensures one_result { (policy : Policy) (events : List Event)
        → policy.mode ≡ Continue → IsRun plan.now policy events
        → is_finished (state_after plan.now policy events) ≡ true
        → HasOneResult (state_after plan.now policy events) }
    ensures by_statuses { (policy : Policy) (events : List Event)
        → policy.mode ≡ Continue → IsRun plan.now policy events
        → is_finished (state_after plan.now policy events) ≡ true
        → HasResultByStatuses (state_after plan.now policy events) }
    ensures agrees_with_table { (policy : Policy) (events : List Event)
        → IsRun plan.now policy events
        → AgreesWithTable (state_after plan.now policy events) }
    ensures all_or_none { (policy : Policy) (events : List Event)
        → IsRun plan.now policy events
        → IsAllOrNone (state_after plan.now policy events) }
    ensures rests_on_successes { (policy : Policy) (events : List Event)
        → IsRun plan.now policy events
        → RestsOnSuccesses (state_after plan.now policy events) }
    ensures statuses { (policy : Policy) (events : List Event)
        → IsRun plan.now policy events
        → HasStatuses (state_after plan.now policy events) }
{
    every_plan(plan);
}

/// Statuses are possible if and only if they are those of the answers of some finished run, in either mode.
pub fn every_possible(plan: &Plan<'_>)
    ensures { (mode : Mode) (statuses : ℕ → ℕ)
        → IsPossible (plan_graph plan.now) statuses ↔ HasRun plan.now mode statuses }
{
    every_plan(plan);
}

/// The definitions that compute agree with plain ones: the phase of a request is that of its start and
/// its first report, `fails` is the least relation closed under its two rules, and a
/// unit succeeds under a table of statuses if its members do and the other units that they depend on.
pub fn definitions_agree(plan: &Plan<'_>)
    ensures phases { (policy : Policy) (events : List Event) (i : ℕ)
        → IsRun plan.now policy events
        → phase_at (state_after plan.now policy events) i ≡ phase_of i events }
    ensures failing { (bad : ℕ → Bool) (u : ℕ)
        → IsTrue (fails (plan_graph plan.now) bad u)
        ↔ Fails (plan_graph plan.now) bad u }
    ensures succeeding { (statuses : ℕ → ℕ) (u : ℕ)
        → SucceedsByMembers (plan_graph plan.now) statuses u }
{
    every_plan(plan);
}

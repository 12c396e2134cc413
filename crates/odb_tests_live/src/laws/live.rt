//! Live runs over bytes in memory: one that was opened after recorded events writes what a run by those events
//! writes; and one that then takes one event more is the run that is opened after all of them.

ghost use Rattle.std.specs.Prelude.{◌≡◌, ◌∷◌, [], true, ℕ, List, Some, IfSome, string_bytes};
ghost use Rattle.odb_check.specs.Plans.{plan_records};
ghost use Rattle.odb_check.specs.Positions.{id_at};
ghost use Rattle.odb_doc.specs.recorded.EventLists.{entries};
ghost use Rattle.odb_doc.specs.recorded.Events as named;
ghost use Rattle.odb_engine.specs.declared.ending.Ended.TheVariants.{Done};
ghost use Rattle.odb_engine.specs.declared.form.Form.TheVariants.{Lines};
ghost use Rattle.odb_engine.specs.Cascade.{Accepts};
ghost use Rattle.odb_engine.specs.Contents.Given.{InMemory};
ghost use Rattle.odb_live.specs.Live.{Live, Opens, RecordsOneMore, Shows};
ghost use Rattle.odb_engine.specs.Runs.{AreEventsIn};
ghost use Rattle.odb_engine.specs.Tasks.{OfDocuments};
ghost use Rattle.odb_engine.specs.declared.tasks.task.Task.TheVariants.{Run};
ghost use Rattle.odb_sched.specs.declared.event.Event.TheVariants.{Start};

use odb_check::laws::every_plan;
use odb_check::{Plan, Seed, check};
use odb_doc::{Batch, Events, NamedEvent, parse};
use odb_engine::{Ended, Names, Setup, Task, answer_in_memory};
use odb_live::laws::one_live_run;
use odb_live::{LiveRun, open_run};
use odb_sched::{Mode, Policy};
use odb_testing::PAIR;
use std::alloc::Global;

/// A policy that bars no start by its width.
pub const FREE: Policy = Policy {
    mode: Mode::Continue,
    width: 10_000,
};

/// Events that finish a run.
const EVENTS: &str =
    r#"{"events":[{"start":"1"},{"report":"1","status":404,"headers":{"ETag":"€"}}]}"#;

/// How a run ended, and what it wrote.
type Written = (Ended, Vec<u8>);

/// Opens a live run after recorded events, and returns its response.
fn live(alloc: Global, batch: &[u8], events: &[u8], policy: Policy) -> Option<String>
    ensures { IfSome result (λ text. (live : Live) × Opens policy batch.now events.now live
        × Shows live Lines Done (string_bytes text)) }
{
    let Ok(live) = open_run(alloc, batch, events, policy, Seed::none()) else {
        return None;
    };
    match live.response(alloc) {
        Ok(text) => Some(text),
        Err(_) => None,
    }
}

/// Runs a batch by recorded events.
fn recorded(alloc: Global, batch: &[u8], events: &[u8], policy: Policy) -> Option<Written>
    ensures { IfSome result (λ it. OfDocuments (Run policy) (InMemory events.now) batch.now Lines
        it.0 it.1.items) }
{
    let task = Task::Run { policy };
    match answer_in_memory(alloc, batch, events, Names::NONE, task, Setup::plain()) {
        Ok(answer) => Some((answer.ended, answer.text)),
        Err(_) => None,
    }
}

/// A live run and a run by recorded events, of the same events.
fn live_and_recorded(
    alloc: Global,
    batch: &[u8],
    events: &[u8],
    policy: Policy,
) -> Option<(String, Written)>
    ensures { IfSome result (λ both. (both.1.0 ≡ Done)
        × (string_bytes both.0 ≡ both.1.1.items)) }
{
    one_live_run();
    let text = live(alloc, batch, events, policy)?;
    let written = recorded(alloc, batch, events, policy)?;
    Some((text, written))
}

/// Reads a document of events.
pub fn events_in(alloc: Global, bytes: &[u8]) -> Option<Events>
    ensures { IfSome result (λ found. AreEventsIn bytes.now (entries found)) }
{
    let Ok(value) = parse(alloc, bytes) else {
        return None;
    };
    match Events::read(alloc, value) {
        Ok(found) => Some(found),
        Err(_) => None,
    }
}

/// Returns the position of the request that the one event of a document starts.
fn started_by(plan: &Plan<'_>, found: &Events) -> Option<u32>
    ensures { IfSome result (λ i. (id : List ℕ) × (entries found.now ≡ named.Start id ∷ [])
        × (id_at (plan_records plan.now) i ≡ Some id)) }
{
    every_plan(plan);
    if found.len() != 1 {
        return None;
    }
    match found.entry(0) {
        NamedEvent::Start(id) => plan.position_of(id),
        NamedEvent::Report(_, _) => None,
    }
}

/// Returns the position of the request that the one event in `more` starts, if there is no event in `events`.
fn started_on(alloc: Global, plan: &Plan<'_>, events: &[u8], more: &[u8]) -> Option<u32>
    ensures { IfSome result (λ i. RecordsOneMore (plan_records plan.now) events.now more.now (Start i)) }
{
    let before = events_in(alloc, events)?;
    if !before.is_empty() {
        return None;
    }
    started_by(plan, &events_in(alloc, more)?)
}

/// Returns what [`started_on`] does, for the batch in a document.
fn started(alloc: Global, batch: &[u8], events: &[u8], more: &[u8]) -> Option<u32>
    ensures { IfSome result (λ i. Accepts batch.now (λ requests.
        RecordsOneMore requests events.now more.now (Start i))) }
{
    let Ok(value) = parse(alloc, batch) else {
        return None;
    };
    let Ok(read) = Batch::read(alloc, &value) else {
        return None;
    };
    match check(alloc, &read) {
        Ok(plan) => started_on(alloc, &plan, events, more),
        Err(_) => None,
    }
}

/// Starts the request that `more` starts on a live run that was opened after `events`. A run that is opened after `more` is
/// the same.
fn goes_on(
    live: &mut LiveRun,
    alloc: Global,
    batch: &[u8],
    events: &[u8],
    more: &[u8],
    policy: Policy,
) -> bool
    requires { Opens policy batch.now events.now live.old }
    ensures { result ≡ true → Opens policy batch.now more.now live.new }
{
    one_live_run();
    let _policy = policy;
    let Some(i) = started(alloc, batch, events, more) else {
        return false;
    };
    if i >= live.run().len() {
        return false;
    }
    match live.start(i) {
        Ok(()) => true,
        Err(_) => false,
    }
}

pub const NO_EVENTS: &[u8] = br#"{"events":[]}"#;

pub const ONE_EVENT: &[u8] = br#"{"events":[{"start":"1"}]}"#;

/// Whether a live run and a run by recorded events wrote the same response.
fn are_alike(both: Option<(String, Written)>) -> bool {
    match &both {
        Some((text, (Ended::Done, written))) => text.as_bytes() == written.as_slice(),
        _ => false,
    }
}

/// Whether a live run that has taken one event more has the first request running, and no other.
fn has_gone_on(alloc: Global, policy: Policy) -> bool {
    let batch = PAIR.as_bytes();
    match open_run(alloc, batch, NO_EVENTS, policy, Seed::none()) {
        Ok(mut live) => {
            goes_on(&mut live, alloc, batch, NO_EVENTS, ONE_EVENT, policy)
                && live.run().running() == [0].as_slice()
        }
        Err(_) => false,
    }
}

#[test]
fn a_live_run_is_the_run_of_its_events(rt: HostRuntime) {
    let (alloc, batch, events) = (rt.alloc(), PAIR.as_bytes(), EVENTS.as_bytes());
    assert!(rt; are_alike(live_and_recorded(alloc, batch, events, FREE)));
    assert!(rt; has_gone_on(alloc, FREE));
}

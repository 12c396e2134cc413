//! What `run` says of a list of events.

ghost use Rattle.std.specs.Prelude.{◌≡◌, ◌<◌, length, All, IfOk};
ghost use Rattle.odb_check.specs.Plans.{plan_records};
ghost use Rattle.odb_sched.specs.run.Runs.{event_position};

use super::outcome;
use odb_check::{Need, Plan};
use odb_sched::{Event, Policy, RunRefusal, StartRefusal, run};
use std::alloc::{AllocError, Global};

/// An event by position and status, which is 0 for a start, and what it is allowed: the code of its
/// refusal, or `ok`.
pub type Allowed = (u32, u16, &'static str);

/// An event of the request at a position: a start where the status is 0.
fn event_of(alloc: Global, i: u32, status: u16) -> Event
    ensures { event_position result ≡ i }
{
    if status == 0 {
        Event::Start(i)
    } else {
        Event::Report(i, outcome(alloc, status))
    }
}

/// The events of requests that the plan has.
fn events_of(alloc: Global, plan: &Plan<'_>, events: &[Allowed]) -> Result<Vec<Event>, AllocError>
    ensures { IfOk result (λ list. All
        (λ event. event_position event < length (plan_records plan.now)) list.items) }
{
    let mut list = Vec::new(alloc);
    for (i, status, _code) in events {
        if *i < plan.len() {
            list.push(event_of(alloc, *i, *status))?;
        }
    }
    Ok(list)
}

/// Where `run` refuses a list, by which code, and what the event waits for.
pub type Refused = (usize, &'static str, Option<Need>);

/// The parts of a refusal.
fn refused(refusal: RunRefusal) -> Refused {
    match refusal {
        RunRefusal::Start { at, cause } => match cause {
            StartRefusal::Waiting(need) => (at, cause.code(), Some(need)),
            _ => (at, cause.code(), None),
        },
        RunRefusal::Report { at, cause } => (at, cause.code(), None),
        RunRefusal::OutOfMemory => (0, "memory", None),
    }
}

/// What `run` says of a list of events: whether the run is finished, or why it is refused.
pub fn listed(
    alloc: Global,
    plan: &Plan<'_>,
    policy: Policy,
    events: &[Allowed],
) -> Result<bool, Refused> {
    let Ok(events) = events_of(alloc, plan, events) else {
        return Err(refused(RunRefusal::OutOfMemory));
    };
    match run(alloc, plan, policy, events) {
        Ok(scheduler) => Ok(scheduler.is_finished()),
        Err(refusal) => Err(refused(refusal)),
    }
}

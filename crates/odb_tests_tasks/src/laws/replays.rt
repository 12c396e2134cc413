//! A replay, and a run by a document of the events of its course: the run writes the response of the replay.

ghost use Rattle.std.specs.Prelude.{◌≡◌, Some, IfSome};
ghost use Rattle.odb_engine.specs.Cascade.{Accepts};
ghost use Rattle.odb_engine.specs.Inputs.{SomeDocument};
ghost use Rattle.odb_engine.specs.declared.ending.Ended.TheVariants.{Done};
ghost use Rattle.odb_sched.specs.declared.order.Order.TheVariants.{Wide};
ghost use Rattle.odb_sched.specs.run.Choosing.{AllowsOrder};
ghost use Rattle.odb_tests_tasks.specs.Replayed.{IsRunAgain};

use crate::engines::{FREE, OUTCOMES};
use crate::laws::engines::{Written, written};
use odb_engine::laws::{every_replay, one_document, one_text};
use odb_engine::{Ended, Task};
use odb_sched::{Order, Policy};
use odb_testing::{PAIR, Two};
use std::alloc::Global;

/// Replays a batch with a trace, and runs it by a document of events.
fn replayed_and_run(
    alloc: Global,
    batch: &[u8],
    outcomes: &[u8],
    events: &[u8],
    policy: Policy,
) -> Two<Written>
    ensures { IfSome result.0 (λ a. IfSome result.1 (λ b. a.0 ≡ Done
        → SomeDocument (Some batch.now) (λ bytes. Accepts bytes (IsRunAgain (AllowsOrder Wide) policy
        outcomes.now events.now a.1.items b.0 b.1.items bytes)))) }
{
    one_document();
    one_text();
    every_replay();
    let task = Task::Replay {
        policy,
        order: Order::Wide,
        traced: true,
    };
    (
        written(alloc, batch, outcomes, task),
        written(alloc, batch, events, Task::Run { policy }),
    )
}

/// The events of the course of `PAIR` by `OUTCOMES`.
const COURSE: &str = r#"{"events":[{"start":"1"},{"report":"1","status":200,"body":["€"]},
    {"start":"2"},{"report":"2","status":204}]}"#;

const TRACE: &str = "start 1\nreport 1 200\nstart 2\nreport 2 204\n";

/// Whether the first text is a trace of `PAIR` and then the second text.
fn is_traced(both: &Two<Written>) -> bool {
    match both {
        (Some((Ended::Done, replayed)), Some((Ended::Done, response))) => {
            replayed.as_slice().strip_prefix(TRACE.as_bytes()) == Some(response.as_slice())
        }
        _ => false,
    }
}

#[test]
fn a_run_by_the_events_of_a_replay_writes_its_response(rt: HostRuntime) {
    let (batch, outcomes, events) = (PAIR.as_bytes(), OUTCOMES.as_bytes(), COURSE.as_bytes());
    assert!(rt; is_traced(&replayed_and_run(rt.alloc(), batch, outcomes, events, FREE)));
}

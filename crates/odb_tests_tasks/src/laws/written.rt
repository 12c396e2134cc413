//! What the engines accept of what they write: a response as one to its batch, and a rest as a batch.

ghost use Rattle.std.specs.Prelude.{◌≡◌, true, Option, Some, IfSome};
ghost use Rattle.odb_engine.specs.Contents.Given.{ByReader, InMemory};
ghost use Rattle.odb_engine.specs.Inputs.{SomeDocument};
ghost use Rattle.odb_engine.specs.Tasks.{OfDocuments};
ghost use Rattle.odb_engine.specs.Written.{IsDone, MayBeDocument};
ghost use Rattle.odb_engine.specs.declared.ending.Ended.TheVariants.{Done};
ghost use Rattle.odb_engine.specs.declared.form.Form.TheVariants.{Lines};
ghost use Rattle.odb_engine.specs.declared.tasks.task.Task.TheVariants as tasks;
ghost use Rattle.odb_reply.specs.declared.strictness.Strictness as strictness;
ghost use Rattle.odb_sched.specs.declared.policy.Mode as modes;

use crate::engines::{EVENTS, FREE, OUTCOMES};
use crate::laws::engines::{answered, written};
use odb_engine::laws::written::{every_match, every_rest};
use odb_engine::laws::{one_text, read_again};
use odb_engine::{Ended, Form, Task};
use odb_reply::Strictness;
use odb_sched::{Mode, Order, Policy};
use odb_testing::PAIR;
use std::alloc::Global;

/// Returns whether a text may be a document: it is not too long for one, and in UTF-8.
fn may_be_document(text: &[u8]) -> bool
    ensures { result ≡ true → MayBeDocument text.now }
{
    text.len() <= 16_777_216 && std::str::from_utf8(text).is_ok()
}

/// Does a task on documents in memory, and returns its result if that may be a document.
fn result_of(alloc: Global, batch: &[u8], second: &[u8], task: Task, form: Form) -> Option<Vec<u8>>
    ensures short { IfSome result (λ text. MayBeDocument text.items) }
    ensures done { IfSome result (λ text. OfDocuments task (InMemory second.now) batch.now form
        Done text.items) }
{
    match answered(alloc, batch, second, task, form) {
        Some((Ended::Done, text)) if may_be_document(&text) => Some(text),
        _ => None,
    }
}

/// Does a task on the documents of two readers, and returns its result if that may be a document.
fn result_of_readers(alloc: Global, batch: &[u8], second: &[u8], task: Task) -> Option<Vec<u8>>
    ensures short { IfSome result (λ text. MayBeDocument text.items) }
    ensures done { IfSome result (λ text. SomeDocument (Some batch.now) (λ bytes.
        OfDocuments task (ByReader (Some second.now)) bytes Lines Done text.items)) }
{
    match written(alloc, batch, second, task) {
        Some((Ended::Done, text)) if may_be_document(&text) => Some(text),
        _ => None,
    }
}

/// Does a task on documents in memory, and returns how it ended.
fn ended(alloc: Global, batch: &[u8], second: &[u8], task: Task, form: Form) -> Option<Ended>
    ensures { IsDone task batch.now second.now → IfSome result (λ ended. ended ≡ Done) }
{
    one_text();
    let answer = answered(alloc, batch, second, task, form)?;
    Some(answer.0)
}

/// Runs a batch, and matches its response: that is accepted.
fn ran_and_matched(
    alloc: Global,
    batch: &[u8],
    events: &[u8],
    policy: Policy,
    how: How,
    form: Form,
) -> Option<Ended>
    ensures { IfSome result (λ ended. ended ≡ Done) }
{
    every_match();
    let (mode, strict) = how;
    let text = result_of(alloc, batch, events, Task::Run { policy }, form)?;
    ended(alloc, batch, &text, Task::Match { mode, strict }, form)
}

/// Replays a batch, and matches its response: that is accepted.
fn replayed_and_matched(
    alloc: Global,
    batch: &[u8],
    outcomes: &[u8],
    policy: Policy,
    how: How,
    form: Form,
) -> Option<Ended>
    ensures { IfSome result (λ ended. ended ≡ Done) }
{
    every_match();
    let (mode, strict) = how;
    let task = Task::Replay {
        policy,
        order: Order::Last,
        traced: false,
    };
    let text = result_of(alloc, batch, outcomes, task, form)?;
    ended(alloc, batch, &text, Task::Match { mode, strict }, form)
}

/// Makes the rest of a batch by responses, and checks it: that is accepted.
fn rested_and_checked(
    alloc: Global,
    batch: &[u8],
    responses: &[u8],
    mode: Mode,
    all: bool,
    form: Form,
) -> Option<Ended>
    ensures { IfSome result (λ ended. ended ≡ Done) }
{
    every_rest();
    let text = result_of(alloc, batch, responses, Task::Rest { mode }, form)?;
    ended(alloc, &text, &[], Task::Check { all }, form)
}

/// Returns the response of a run of a reader's batch. Each match accepts it.
fn ran(alloc: Global, batch: &[u8], events: &[u8], policy: Policy) -> Option<Vec<u8>>
    ensures { IfSome result (λ text. SomeDocument (Some batch.now) (λ bytes.
        (mode : modes.Mode) (strict : Option strictness.Strictness)
        → IsDone (tasks.Match mode strict) bytes text.items)) }
{
    every_match();
    result_of_readers(alloc, batch, events, Task::Run { policy })
}

/// Returns the response of a replay of a reader's batch. Each match accepts it.
fn replayed(alloc: Global, batch: &[u8], outcomes: &[u8], policy: Policy) -> Option<Vec<u8>>
    ensures { IfSome result (λ text. SomeDocument (Some batch.now) (λ bytes.
        (mode : modes.Mode) (strict : Option strictness.Strictness)
        → IsDone (tasks.Match mode strict) bytes text.items)) }
{
    every_match();
    let task = Task::Replay {
        policy,
        order: Order::Last,
        traced: false,
    };
    result_of_readers(alloc, batch, outcomes, task)
}

/// Returns the response of a run of a reader's batch. It is read again, so that each match accepts it.
fn ran_and_read(alloc: Global, batch: &[u8], events: &[u8], policy: Policy) -> Option<Vec<u8>>
    ensures { IfSome result (λ text. SomeDocument (Some batch.now) (λ bytes.
        (mode : modes.Mode) (strict : Option strictness.Strictness)
        → IsDone (tasks.Match mode strict) bytes text.items)) }
{
    read_again();
    every_match();
    result_of_readers(alloc, batch, events, Task::Run { policy })
}

/// The mode of a match, and how strict it is.
type How = (Mode, Option<Strictness>);

const MATCHES: &[How] = &[
    (Mode::Continue, None),
    (Mode::Stop, Some(Strictness::Requests)),
    (Mode::Continue, Some(Strictness::Units)),
];

/// Whether matches of the responses of a run and of a replay are done.
fn are_matched(alloc: Global, how: How, form: Form) -> bool {
    let batch = PAIR.as_bytes();
    ran_and_matched(alloc, batch, EVENTS.as_bytes(), FREE, how, form) == Some(Ended::Done)
        && replayed_and_matched(alloc, batch, OUTCOMES.as_bytes(), FREE, how, form)
            == Some(Ended::Done)
}

#[test]
fn a_match_is_done_on_what_a_run_and_a_replay_write(rt: HostRuntime) {
    for how in MATCHES {
        assert!(rt; are_matched(rt.alloc(), *how, Form::Lines));
        assert!(rt; are_matched(rt.alloc(), *how, Form::Json));
    }
}

#[test]
fn readers_and_memory_give_one_response(rt: HostRuntime) {
    let (alloc, batch) = (rt.alloc(), PAIR.as_bytes());
    let (events, outcomes) = (EVENTS.as_bytes(), OUTCOMES.as_bytes());
    assert!(rt; ran(alloc, batch, events, FREE).is_some());
    assert!(rt; ran_and_read(alloc, batch, events, FREE).is_some());
    assert!(rt; replayed(alloc, batch, outcomes, FREE).is_some());
}

/// Responses of which the second request may be sent again.
const UNAVAILABLE: &[u8] = br#"{"responses":[{"id":"1","status":200},{"id":"2","status":503}]}"#;

#[test]
fn a_check_is_done_on_what_a_rest_writes(rt: HostRuntime) {
    let (alloc, batch) = (rt.alloc(), PAIR.as_bytes());
    for (all, form) in &[(false, Form::Lines), (true, Form::Json)] {
        let found = rested_and_checked(alloc, batch, UNAVAILABLE, Mode::Continue, *all, *form);
        assert!(rt; found == Some(Ended::Done));
    }
}

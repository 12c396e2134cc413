//! The engines over bytes in memory: two calls for the same bytes end alike, and write one text; and a
//! response that they write is read again.

ghost use Rattle.std.specs.Prelude.{◌≡◌, false, Some, IfSome};
ghost use Rattle.odb_sched.specs.declared.order.Order.TheVariants.{Last};
ghost use Rattle.odb_engine.specs.Cascade.{Accepts};
ghost use Rattle.odb_engine.specs.Contents.Given.{ByReader, InMemory};
ghost use Rattle.odb_engine.specs.Inputs.{SomeDocument};
ghost use Rattle.odb_reply.specs.declared.strictness.Strictness.TheVariants.{Requests};
ghost use Rattle.odb_engine.specs.ReadAgain.{IsReadAgain};
ghost use Rattle.odb_engine.specs.Tasks.{OfDocuments, OfWholeLine};
ghost use Rattle.odb_engine.specs.declared.ending.Ended.TheVariants.{Done};
ghost use Rattle.odb_engine.specs.declared.form.Form.TheVariants.{Lines};
ghost use Rattle.odb_testing.specs.Readings.{AreOne};

use crate::engines::{EVENTS, EXAMPLES, Example, FREE, OUTCOMES, called_plainly};
use odb_engine::laws::{one_document, one_text, read_again};
use odb_engine::{Ended, Form, Names, Setup, Task, answer_in_memory, answer_line};
use odb_io::{Input, Output};
use odb_sched::{Mode, Order, Policy};
use odb_testing::{PAIR, Two};
use std::alloc::{AllocError, Global};

/// How a task ended, and what it wrote.
pub type Written = (Ended, Vec<u8>);

/// Does a task on the documents of two readers.
pub fn written(alloc: Global, batch: &[u8], second: &[u8], task: Task) -> Option<Written>
    ensures { IfSome result (λ it. SomeDocument (Some batch.now) (λ bytes.
        OfDocuments task (ByReader (Some second.now)) bytes Lines it.0 it.1.items)) }
{
    let mut output = Output::new(Vec::new(alloc));
    match called_plainly(
        alloc,
        task,
        &mut Input::new(batch),
        &mut Input::new(second),
        &mut output,
    ) {
        Ok(ended) => Some((ended, output.into_inner())),
        Err(_) => None,
    }
}

fn written_twice(alloc: Global, batch: &[u8], second: &[u8], task: Task) -> Two<Written>
    ensures { AreOne result.0 result.1 }
{
    one_document();
    one_text();
    (
        written(alloc, batch, second, task),
        written(alloc, batch, second, task),
    )
}

/// Returns the setup of this form.
fn in_form(form: Form) -> Setup
    ensures form { result.form ≡ form }
    ensures numbered { result.faults.numbered ≡ false }
    ensures located { result.faults.located ≡ false }
{
    Setup {
        form,
        ..Setup::plain()
    }
}

/// Does a task on the documents in memory.
pub fn answered(
    alloc: Global,
    batch: &[u8],
    second: &[u8],
    task: Task,
    form: Form,
) -> Option<Written>
    ensures { IfSome result (λ it. OfDocuments task (InMemory second.now) batch.now form
        it.0 it.1.items) }
{
    match answer_in_memory(alloc, batch, second, Names::NONE, task, in_form(form)) {
        Ok(answer) => Some((answer.ended, answer.text)),
        Err(_) => None,
    }
}

fn answered_twice(
    alloc: Global,
    batch: &[u8],
    second: &[u8],
    task: Task,
    form: Form,
) -> Two<Written>
    ensures { AreOne result.0 result.1 }
{
    one_text();
    (
        answered(alloc, batch, second, task, form),
        answered(alloc, batch, second, task, form),
    )
}

/// Does a task on a line.
pub fn line_answered(alloc: Global, line: &[u8], task: Task, form: Form) -> Option<Written>
    ensures { IfSome result (λ it. OfWholeLine task line.now form it.0 it.1.items) }
{
    match answer_line(alloc, "", 1, line, task, in_form(form)) {
        Ok(answer) => Some((answer.ended, answer.text)),
        Err(_) => None,
    }
}

fn line_answered_twice(alloc: Global, line: &[u8], task: Task, form: Form) -> Two<Written>
    ensures { AreOne result.0 result.1 }
{
    one_text();
    (
        line_answered(alloc, line, task, form),
        line_answered(alloc, line, task, form),
    )
}

/// Runs a batch. A response that it writes is read again, and its responses fit the batch.
fn ran_and_read(alloc: Global, batch: &[u8], events: &[u8], policy: Policy) -> Option<Written>
    ensures { IfSome result (λ it. it.0 ≡ Done → SomeDocument (Some batch.now) (λ bytes.
        Accepts bytes (λ requests. IsReadAgain Requests requests it.1.items))) }
{
    read_again();
    written(alloc, batch, events, Task::Run { policy })
}

/// Replays a batch. A response that it writes is read again, and its responses fit the batch.
fn replayed_and_read(
    alloc: Global,
    batch: &[u8],
    outcomes: &[u8],
    policy: Policy,
) -> Option<Written>
    ensures { IfSome result (λ it. it.0 ≡ Done → SomeDocument (Some batch.now) (λ bytes.
        Accepts bytes (λ requests. IsReadAgain Requests requests it.1.items))) }
{
    read_again();
    let task = Task::Replay {
        policy,
        order: Order::Last,
        traced: false,
    };
    written(alloc, batch, outcomes, task)
}

/// Whether both calls are done, and wrote this text.
fn are(both: &Two<Written>, text: &str) -> bool {
    match both {
        (Some((Ended::Done, one)), Some((Ended::Done, other))) => {
            one == other && one.as_slice() == text.as_bytes()
        }
        _ => false,
    }
}

/// Returns the line on which a task is done: the batch, or an array of it and the second document.
fn line_of(alloc: Global, task: Task, second: &str) -> Result<String, AllocError> {
    if task.takes_second() {
        format!(in alloc; "[{PAIR},{second}]")
    } else {
        String::from_str(alloc, PAIR)
    }
}

/// Whether two calls on a line are done, and wrote this text.
fn is_one_of_line(alloc: Global, task: Task, second: &str, text: &str) -> bool {
    match line_of(alloc, task, second) {
        Ok(line) => are(
            &line_answered_twice(alloc, line.as_bytes(), task, Form::Lines),
            text,
        ),
        Err(_) => false,
    }
}

/// Whether a task writes its text of readers, of documents in memory and of a line.
fn is_one(alloc: Global, (task, second, text): Example) -> bool {
    let (batch, bytes) = (PAIR.as_bytes(), second.as_bytes());
    are(&written_twice(alloc, batch, bytes, task), text)
        && are(
            &answered_twice(alloc, batch, bytes, task, Form::Lines),
            text,
        )
        && is_one_of_line(alloc, task, second, text)
}

/// Whether both calls refused a document, and wrote this line.
fn are_refused(both: &Two<Written>, line: &str) -> bool {
    match both {
        (Some((Ended::Refused, one)), Some((Ended::Refused, other))) => {
            one == other && one.as_slice() == line.as_bytes()
        }
        _ => false,
    }
}

#[test]
fn tasks_write_one_text_of_the_same_bytes(rt: HostRuntime) {
    for example in &EXAMPLES {
        assert!(rt; is_one(rt.alloc(), *example));
    }
}

const CHECK: Task = Task::Check { all: false };

/// The documents that are refused by this line of JSON, as documents in memory.
const REFUSED: [(&str, &str); 2] = [
    (
        "{",
        "{\"fault\":{\"code\":\"F02\",\"name\":\"NotJson\",\"place\":\"batch\"}}\n",
    ),
    (
        "{\"requests\":[{}]}",
        "{\"fault\":{\"code\":\"F13\",\"name\":\"BadId\",\"place\":\"/requests/0\"}}\n",
    ),
];

#[test]
fn tasks_write_one_line_of_json_of_a_fault(rt: HostRuntime) {
    for (batch, line) in &REFUSED {
        let twice = answered_twice(rt.alloc(), batch.as_bytes(), &[], CHECK, Form::Json);
        assert!(rt; are_refused(&twice, line));
        let twice = line_answered_twice(
            rt.alloc(),
            batch.as_bytes(),
            Task::Plan { full: false },
            Form::Json,
        );
        assert!(rt; are_refused(&twice, line));
    }
}

/// Whether a run or a replay wrote a response, which a match finds to fit the batch.
fn fits(alloc: Global, response: Option<Written>) -> bool {
    match &response {
        Some((Ended::Done, text)) => {
            let task = Task::Match {
                mode: Mode::Continue,
                strict: None,
            };
            let found = written(alloc, PAIR.as_bytes(), text, task);
            found.is_some_and(|it| it.0 == Ended::Done)
        }
        _ => false,
    }
}

#[test]
fn a_match_accepts_what_a_run_and_a_replay_write(rt: HostRuntime) {
    let (alloc, batch) = (rt.alloc(), PAIR.as_bytes());
    let (events, outcomes) = (EVENTS.as_bytes(), OUTCOMES.as_bytes());
    assert!(rt; fits(alloc, ran_and_read(alloc, batch, events, FREE)));
    assert!(rt; fits(alloc, replayed_and_read(alloc, batch, outcomes, FREE)));
}

//! Faults that are printed with where they are, and with the number of their line: two calls write one text.

ghost use Rattle.std.specs.Prelude.{◌≡◌, true, IfSome};
ghost use Rattle.serde_json.specs.Data.{Data};
ghost use Rattle.odb_doc.specs.Documents.{IsJson};
ghost use Rattle.odb_engine.specs.Located.{LocatesDocuments};
ghost use Rattle.odb_engine.specs.Tasks.{takes_second};
ghost use Rattle.odb_engine.specs.lines.Numbers.{OfNumbered};
ghost use Rattle.odb_testing.specs.Readings.{AreOne};

use crate::laws::engines::Written;
use odb_doc::parse;
use odb_engine::laws::one_text;
use odb_engine::{Ended, Faults, Form, Names, Setup, Task, answer_in_memory, answer_line};
use odb_sched::Mode;
use odb_testing::{PAIR, Two};
use std::alloc::Global;

/// Returns whether bytes are JSON.
fn is_json(alloc: Global, bytes: &[u8]) -> bool
    ensures { result ≡ true → (d : Data) × IsJson bytes.now d }
{
    parse(alloc, bytes).is_ok()
}

/// Returns whether a batch document is JSON, and a second one if the task takes it.
fn are_json(alloc: Global, batch: &[u8], second: &[u8], task: Task) -> bool
    ensures batch { result ≡ true → (d : Data) × IsJson batch.now d }
    ensures second { result ≡ true → takes_second task ≡ true → (e : Data) × IsJson second.now e }
{
    is_json(alloc, batch) && (!task.takes_second() || is_json(alloc, second))
}

/// Returns the setup of this form that prints each fault with where it is.
fn locating(form: Form) -> Setup
    ensures form { result.form ≡ form }
    ensures located { result.faults.located ≡ true }
{
    Setup {
        form,
        faults: Faults {
            numbered: false,
            located: true,
        },
        ..Setup::plain()
    }
}

/// Does a task on documents in memory. A fault is printed with where it is.
fn located(
    alloc: Global,
    batch: &[u8],
    second: &[u8],
    names: Names<'_>,
    task: Task,
    form: Form,
) -> Option<Written>
    ensures { IfSome result (λ it. LocatesDocuments task names.entry.batch.now batch.now
        names.entry.second.now second.now form it.0 it.1.items) }
{
    match answer_in_memory(alloc, batch, second, names, task, locating(form)) {
        Ok(answer) => Some((answer.ended, answer.text)),
        Err(_) => None,
    }
}

/// Does a task on documents in memory twice, if they are JSON.
fn located_twice(
    alloc: Global,
    batch: &[u8],
    second: &[u8],
    names: Names<'_>,
    task: Task,
    form: Form,
) -> Two<Written>
    ensures { AreOne result.0 result.1 }
{
    one_text();
    if !are_json(alloc, batch, second, task) {
        return (None, None);
    }
    (
        located(alloc, batch, second, names, task, form),
        located(alloc, batch, second, names, task, form),
    )
}

/// Does a task on the line of this number in a log.
fn numbered(
    alloc: Global,
    name: &str,
    number: usize,
    line: &[u8],
    task: Task,
    setup: Setup,
) -> Option<Written>
    ensures { IfSome result (λ it. OfNumbered setup.faults.numbered setup.faults.located name.now task
        number line.now setup.form it.0 it.1.items) }
{
    match answer_line(alloc, name, number, line, task, setup) {
        Ok(answer) => Some((answer.ended, answer.text)),
        Err(_) => None,
    }
}

/// Does a task on a line twice. If faults are printed with where they are, it is one that is JSON.
fn numbered_twice(
    alloc: Global,
    name: &str,
    number: usize,
    line: &[u8],
    task: Task,
    setup: Setup,
) -> Two<Written>
    ensures { AreOne result.0 result.1 }
{
    one_text();
    if setup.faults.located && !is_json(alloc, line) {
        return (None, None);
    }
    (
        numbered(alloc, name, number, line, task, setup),
        numbered(alloc, name, number, line, task, setup),
    )
}

const NAMES: Names<'static> = Names {
    batch: "batch",
    second: "responses",
};

const CHECK: Task = Task::Check { all: true };

const MATCH: Task = Task::Match {
    mode: Mode::Continue,
    strict: None,
};

/// A task, its documents, and what it writes with where the fault is.
const LOCATED: [(Task, &str, &str, &str); 3] = [
    (
        CHECK,
        "{\"requests\":[\n7,null]}",
        "",
        "batch:2:1: fault F10 NotRequestObject /requests/0\nbatch:2:3: fault F10 NotRequestObject /requests/1\n",
    ),
    (
        MATCH,
        PAIR,
        "{\"responses\":[\n {\"id\":\"3\",\"status\":200}]}",
        "responses:2:2: fault F71 UnknownResponse /responses/0\n",
    ),
    (
        MATCH,
        PAIR,
        r#"{"responses":[{"id":"1","status":200},{"id":"2","status":200}]}"#,
        "ok 2 responses\n1 200\n2 200\n",
    ),
];

/// Whether both calls ended alike, and wrote this text.
fn are(both: &Two<Written>, text: &str) -> bool {
    match both {
        (Some((one, written)), Some((other, again))) => {
            one == other && written == again && written.as_slice() == text.as_bytes()
        }
        _ => false,
    }
}

#[test]
fn tasks_write_one_text_with_where_faults_are(rt: HostRuntime) {
    for (task, batch, second, text) in &LOCATED {
        let (batch, second) = (batch.as_bytes(), second.as_bytes());
        let both = located_twice(rt.alloc(), batch, second, NAMES, *task, Form::Lines);
        assert!(rt; are(&both, text));
    }
    let both = located_twice(rt.alloc(), b"{", &[], NAMES, CHECK, Form::Lines);
    assert!(rt; both.0.is_none() && both.1.is_none());
}

/// How faults are printed, and what is written of a line.
const NUMBERED: &[(Faults, &str)] = &[
    (Faults::PLAIN, "fault F03 NotObject batch\n"),
    (
        Faults {
            numbered: true,
            located: false,
        },
        "5 fault F03 NotObject batch\n",
    ),
    (
        Faults {
            numbered: true,
            located: true,
        },
        "log:5:2: 5 fault F03 NotObject batch\n",
    ),
];

#[test]
fn tasks_write_one_text_of_a_line_with_its_number(rt: HostRuntime) {
    for (faults, text) in NUMBERED {
        let setup = Setup {
            faults: *faults,
            ..Setup::plain()
        };
        let both = numbered_twice(rt.alloc(), "log", 5, b" 7", CHECK, setup);
        assert!(rt; are(&both, text));
    }
}

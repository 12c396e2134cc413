//! A line with two documents: a task that takes no bytes writes of it what it writes of the two documents.

ghost use Rattle.std.specs.Prelude.{◌≡◌, ◌≤◌, false, true, IfSome, string_bytes};
ghost use Rattle.serde_json.specs.Data.{depth};
ghost use Rattle.serde_json.specs.View.{view};
ghost use Rattle.odb_doc.specs.Documents.{IsDocument};
ghost use Rattle.odb_engine.specs.Tasks.{IsLineOf, takes_bytes, takes_second};
ghost use Rattle.odb_testing.specs.Readings.{AreOne};

use crate::engines::{EXAMPLES, Example};
use crate::laws::engines::{Written, answered, line_answered};
use odb_doc::parse;
use odb_engine::laws::{every_pair, one_text};
use odb_engine::{Command, Ended, Form, Task};
use odb_testing::{PAIR, Two};
use serde_json::Value;
use std::alloc::Global;

/// Returns a text of the value that is a document, unless it is too long for one.
fn document_of(alloc: Global, value: &Value) -> Option<String>
    requires { depth (view value.now) ≤ 127 }
    ensures { IfSome result (λ text. IsDocument (string_bytes text) (view value.now)) }
{
    let text = value.to_string(alloc).ok()?;
    match parse(alloc, text.as_bytes()) {
        Ok(_) => Some(text),
        Err(_) => None,
    }
}

/// Returns the two documents in a line, as texts of their own.
fn apart(alloc: Global, line: &[u8]) -> Option<(String, String)>
    ensures { IfSome result
        (λ both. IsLineOf (string_bytes both.0) (string_bytes both.1) line.now) }
{
    let Ok(Value::Array(mut values)) = parse(alloc, line) else {
        return None;
    };
    if values.len() != 2 {
        return None;
    }
    let second = values.pop()?;
    let batch = values.pop()?;
    Some((document_of(alloc, &batch)?, document_of(alloc, &second)?))
}

/// Does a task that takes no bytes on a line with two documents, and on the two documents.
fn of_line_and_of_both(alloc: Global, line: &[u8], task: Task, form: Form) -> Two<Written>
    requires second { takes_second task ≡ true }
    requires bytes { takes_bytes task ≡ false }
    ensures { AreOne result.0 result.1 }
{
    one_text();
    every_pair();
    let Some((batch, second)) = apart(alloc, line) else {
        return (None, None);
    };
    (
        line_answered(alloc, line, task, form),
        answered(alloc, batch.as_bytes(), second.as_bytes(), task, form),
    )
}

/// Whether a task is done, and writes of a line what it writes of the two documents in it, unless it takes only one or
/// their bytes.
fn is_one(alloc: Global, (task, second, _): Example, form: Form) -> bool {
    if !task.takes_second() || task.takes_bytes() {
        return true;
    }
    let Ok(line) = format!(in alloc; "[{PAIR},{second}]") else {
        return false;
    };
    match &of_line_and_of_both(alloc, line.as_bytes(), task, form) {
        (Some((Ended::Done, one)), Some((Ended::Done, other))) => one == other,
        _ => false,
    }
}

#[test]
fn a_task_writes_of_a_line_what_it_writes_of_both_documents(rt: HostRuntime) {
    for example in &EXAMPLES {
        assert!(rt;
            is_one(rt.alloc(), *example, Form::Lines) && is_one(rt.alloc(), *example, Form::Json)
        );
    }
}

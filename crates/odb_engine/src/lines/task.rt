//! A task on a line: it holds a batch document, or an array of a batch and a second document.

ghost use Rattle.std.specs.Prelude.{◌≡◌, ◌≢◌, [], true, map, None, Err, IfErr, IfSome};
ghost use Rattle.serde_json.specs.Data.{Data};
ghost use Rattle.serde_json.specs.View.{view};
ghost use Rattle.odb_engine.specs.declared.halt.Halt.TheVariants as halts;
ghost use Rattle.odb_doc.specs.Documents.{IsJson};
ghost use Rattle.odb_doc.specs.Refusals.{printed};
ghost use Rattle.odb_engine.specs.AllFaults.{AreFaultsIn};
ghost use Rattle.odb_engine.specs.Halts.{Found, Halted};
ghost use Rattle.odb_engine.specs.Tasks.{IsTakenOf, OfLine, OfPair, OfTask, lists_all, takes_bytes};
ghost use Rattle.odb_spans.specs.Positions as spans;

use crate::disposal::DropOrLeak;
use crate::halt::Halt;
use crate::input::value_or_error;
use crate::rule::EngineRule;
use crate::setup::Setup;
use crate::tasks::command::{Command, text_in, text_of};
use crate::tasks::source::{Kept, Slice};
use crate::tasks::task::Task;
use odb_doc::{Place, Refusal};
use odb_spans::{ParseError, documents_in};
use serde_json::Value;
use std::alloc::Global;

/// Takes an array of two values apart; `None` if the value is no such array.
fn pair_of(value: Value) -> Option<(Value, Value)>
    ensures pair { IfSome result (λ found. view value ≡ spans.pair (view found.0) (view found.1)) }
    ensures none { result ≡ None → (first second : Data) → ¬ (view value ≡ spans.pair first second) }
{
    let Value::Array(mut values) = value else {
        return None;
    };
    if values.len() != 2 {
        return None;
    }
    let second = values.pop()?;
    let first = values.pop()?;
    Some((first, second))
}

/// Returns the bytes of the first of the two documents in a line, or none if they are not taken.
fn taken_of(line: &[u8], takes: bool) -> &[u8]
    ensures { (first second : Data) → IsJson line.now (spans.pair first second)
        → IsTakenOf takes line.now (spans.pair first second) result.now }
{
    if !takes {
        return &[];
    }
    match documents_in(line) {
        Some(both) => both.0.bytes_in(line),
        None => &[],
    }
}

/// Returns what a task writes of the two documents in a line.
fn text_of_pair(
    alloc: Global,
    line: &[u8],
    task: Task,
    setup: Setup,
    faults: &mut Vec<Refusal>,
    error: &mut Option<ParseError>,
) -> Result<String, Halt>
    requires { error.old ≡ None }
    ensures found { Found (OfPair (takes_bytes task) (OfTask task) line.now) setup.form result }
    ensures error { IfSome error.new (λ _. (d : Data) → ¬ IsJson line.now d) }
    ensures read { result ≢ Err halts.Read }
{
    let Some((first, mut second)) = pair_of(value_or_error(alloc, line, Place::Batch, error)?)
    else {
        return Err(Halt::from(EngineRule::NotPair));
    };
    let first = DropOrLeak {
        value: first,
        disposal: setup.disposal,
    };
    let document = taken_of(line, task.takes_bytes());
    let mut task = task;
    text_in(
        alloc,
        document,
        &first.value,
        &mut second,
        &mut task,
        setup,
        &mut Kept::new(alloc, false),
        faults,
    )
}

/// Returns what a task writes of a line: of the document in it, or of the two documents in it if the task takes
/// two. The line may be any bytes; they are not copied. `faults` is that of [`text_of`], and `error` gets where the parser
/// stopped if the line is not JSON.
///
/// # Errors
///
/// `Refused` by F07 if a task over two documents is not given an array of two elements; else as
/// [`text_of`]. Never `Read`.
pub fn text_of_line(
    alloc: Global,
    line: &[u8],
    task: Task,
    setup: Setup,
    faults: &mut Vec<Refusal>,
    error: &mut Option<ParseError>,
) -> Result<String, Halt>
    requires faults { faults.old.items ≡ [] }
    requires error { error.old ≡ None }
    ensures found { Found (OfLine task line.now) setup.form result }
    ensures error { IfSome error.new (λ _. (d : Data) → ¬ IsJson line.now d) }
    ensures listed { lists_all task ≡ true → IfErr result (Halted (λ _.
        AreFaultsIn line.now (map printed faults.new.items))) }
    ensures read { result ≢ Err halts.Read }
{
    if task.takes_second() {
        return text_of_pair(alloc, line, task, setup, faults, error);
    }
    let (mut first, mut none) = (Slice { bytes: line }, Slice { bytes: &[] });
    let (mut kept, mut task) = (Kept::new(alloc, true), task);
    let found = text_of(
        alloc,
        &mut first,
        &mut none,
        &mut task,
        setup,
        &mut kept,
        &mut Kept::new(alloc, false),
        faults,
    );
    *error = kept.error;
    found
}

//! The trace of a finished run: its steps, and which requests have to be undone.

ghost use Rattle.std.specs.Prelude.{◌≡◌, ◌<◌, ◌++◌, All, IfOk, OnOk, string_bytes};
ghost use Rattle.odb_sched.specs.run.Answers.{reported, status_of};
ghost use Rattle.std.specs.List.{flat_map};
ghost use Rattle.odb_sched.specs.run.State.{size};
ghost use Rattle.odb_sched.specs.run.Choosing.{position_in};
ghost use Rattle.odb_text.specs.Traces as traces;

use odb_doc::status::FAILED_DEPENDENCY;
use odb_sched::{Done, Step};
use std::alloc::{AllocError, Global};
use std::fmt::Write;

/// Returns the status that a request reported, or 424 if it did not report.
fn reported_status(done: &Done<'_>, i: u32) -> u16
    requires { i < size done.now }
    ensures { result ≡ status_of (reported done.now i) }
{
    match done.reported(i) {
        Some(outcome) => outcome.status,
        None => FAILED_DEPENDENCY,
    }
}

/// Appends the line of a step.
fn push_step(text: &mut String, done: &Done<'_>, step: Step) -> Result<(), AllocError>
    requires { position_in step < size done.now }
    ensures { OnOk result (string_bytes text.new ≡ string_bytes text.old ++ traces.step_line done.now step) }
{
    let plan = done.plan();
    match step {
        Step::Start(i) => {
            let id = plan.request(i).id;
            write!(text, "start {id}\n").map_err(|_| AllocError)
        }
        Step::Report(i) => {
            let id = plan.request(i).id;
            let status = reported_status(done, i);
            write!(text, "report {id} {status}\n").map_err(|_| AllocError)
        }
    }
}

/// Appends the lines of the steps.
fn push_steps(text: &mut String, done: &Done<'_>, steps: &[Step]) -> Result<(), AllocError>
    requires { All (λ step. position_in step < size done.now) steps.now }
    ensures { OnOk result (string_bytes text.new
        ≡ string_bytes text.old ++ flat_map (traces.step_line done.now) steps.now) }
{
    for step in steps {
        push_step(text, done, *step)?;
    }
    Ok(())
}

/// Appends the line of a request that has to be undone.
fn push_undo(text: &mut String, done: &Done<'_>, i: u32) -> Result<(), AllocError>
    requires { i < size done.now }
    ensures { OnOk result (string_bytes text.new ≡ string_bytes text.old ++ traces.undo_line done.now i) }
{
    let id = done.plan().request(i).id;
    write!(text, "undo {id}\n").map_err(|_| AllocError)
}

/// Appends the lines of the requests that have to be undone.
fn push_undone(text: &mut String, done: &Done<'_>, positions: &[u32]) -> Result<(), AllocError>
    requires { All (λ i. i < size done.now) positions.now }
    ensures { OnOk result (string_bytes text.new
        ≡ string_bytes text.old ++ flat_map (traces.undo_line done.now) positions.now) }
{
    for i in positions {
        push_undo(text, done, *i)?;
    }
    Ok(())
}

/// Appends the trace of a finished run if it is wanted.
fn push_trace(
    alloc: Global,
    text: &mut String,
    done: &Done<'_>,
    steps: &[Step],
    traced: bool,
) -> Result<(), AllocError>
    requires { All (λ step. position_in step < size done.now) steps.now }
    ensures { OnOk result (string_bytes text.new
        ≡ string_bytes text.old ++ traces.trace_part traced done.now steps.now) }
{
    if !traced {
        return Ok(());
    }
    let undone = done.undone(alloc)?;
    push_steps(text, done, steps)?;
    push_undone(text, done, &undone)
}

/// Returns the trace of a finished run if it is wanted, and else the empty text. `steps` are the steps of the run.
///
/// A trace has a line for each step, `start ID` or `report ID STATUS`, and then a line `undo ID` for each
/// request that has to be undone.
///
/// # Errors
///
/// `AllocError` if an allocation fails.
pub fn trace_part(
    alloc: Global,
    done: &Done<'_>,
    steps: &[Step],
    traced: bool,
) -> Result<String, AllocError>
    requires { All (λ step. position_in step < size done.now) steps.now }
    ensures { IfOk result (λ text. string_bytes text ≡ traces.trace_part traced done.now steps.now) }
{
    let mut text = String::new(alloc);
    push_trace(alloc, &mut text, done, steps, traced)?;
    Ok(text)
}

//! What the calls on a live run do, as numbers.

ghost use Rattle.std.specs.Prelude.{◌≡◌, ◌<◌, ◌+◌, true, IfOk};
ghost use Rattle.odb_engine.specs.Cascade.{Prints};
ghost use Rattle.odb_live.specs.Labels.{id_lines};
ghost use Rattle.odb_engine.specs.declared.form.Form.TheVariants.{Lines};
ghost use Rattle.odb_sched.specs.run.State as state;
ghost use Rattle.odb_sched.specs.run.Steps.{is_finished, report_number};
ghost use Rattle.odb_calls.specs.Live as calls;
ghost use Rattle.odb_calls.specs.Returns.{Returns};

use crate::answer::give;
use crate::buffer::give_text;
use crate::outcome::{body_of, outcome_of};
use crate::status;
use odb_doc::Outcome;
use odb_engine::{Answer, Ended, Form};
use odb_live::LiveRun;
use odb_reply::JsonText;
use odb_sched::ReportRefusal;
use std::alloc::{AllocError, Global};

/// Returns the status of a report that is refused, and drops its outcome.
fn status_of(refused: (ReportRefusal, Outcome)) -> u32
    ensures { result ≡ 20 + report_number refused.0 }
{
    status::of_report(refused.0)
}

/// Starts a request.
pub fn start(live: &mut LiveRun, position: u32) -> u32
    ensures { calls.Starts live.old live.new position result }
{
    if position >= live.run().len() {
        return status::WRONG_OPTION;
    }
    match live.start(position) {
        Ok(()) => status::DONE,
        Err(cause) => status::of_start(cause),
    }
}

/// Takes an outcome of a request, and its body as text, if it has one.
fn take(live: &mut LiveRun, position: u32, outcome: Outcome, body: Option<JsonText>) -> u32
    requires { position < state.size live.old.run }
    ensures { calls.Takes live.old live.new position outcome body result }
{
    match live.report_text(position, outcome, body) {
        Ok(()) => status::DONE,
        Err(refused) => status_of(refused),
    }
}

/// The same at any position.
pub fn take_at(live: &mut LiveRun, position: u32, outcome: Outcome, body: Option<JsonText>) -> u32
    ensures { calls.TakesAt live.old live.new position outcome body result }
{
    if position >= live.run().len() {
        return status::WRONG_OPTION;
    }
    take(live, position, outcome, body)
}

/// Takes an outcome of a request, and its body as JSON.
fn take_body(live: &mut LiveRun, alloc: Global, position: u32, outcome: Outcome, body: &[u8]) -> u32
    requires { position < state.size live.old.run }
    ensures { calls.TakesBody live.old live.new position outcome body.now result }
{
    match body_of(alloc, body) {
        Ok(text) => take(live, position, outcome, text),
        Err(halt) => status::of_halt(halt),
    }
}

/// Takes the outcome of a request with this status and with headers and a body as JSON.
pub fn report(
    live: &mut LiveRun,
    alloc: Global,
    position: u32,
    status: u32,
    headers: &[u8],
    body: &[u8],
) -> u32
    ensures { calls.Reports live.old live.new position status headers.now body.now result }
{
    if position >= live.run().len() {
        return status::WRONG_OPTION;
    }
    match outcome_of(alloc, status, headers) {
        Ok(outcome) => take_body(live, alloc, position, outcome, body),
        Err(halt) => status::of_halt(halt),
    }
}

/// Returns the ids of the requests, one a line.
pub fn ids(live: &LiveRun, alloc: Global) -> Result<Answer, AllocError>
    ensures { IfOk result (λ answer. Prints (id_lines live.now.labels)
        answer.ended answer.text.items) }
{
    let text = live.ids(alloc)?.into_bytes();
    Ok(Answer {
        ended: Ended::Done,
        text,
    })
}

/// Returns what a run by recorded events writes after the same events.
fn response(live: &LiveRun, alloc: Global) -> Result<Answer, AllocError>
    ensures { IfOk result (λ answer. calls.Responds live.now Lines
        answer.ended answer.text.items) }
{
    Answer::of(alloc, Form::Lines, live.response(alloc))
}

/// What is written of a run that is not finished: the line of F66.
const UNFINISHED: &str = "fault F66 Unfinished events\n";

/// Gives what a run by recorded events writes after the same events. The line of F66 is given whatever memory there is.
pub fn give_response(live: &LiveRun, alloc: Global, text: &mut [u8], text_length: &mut usize) -> u32
    ensures text { Returns (calls.Responds live.now Lines) result text_length.new text.old text.new }
    ensures memory { result ≡ 4 → is_finished live.now.run ≡ true }
{
    if live.run().is_finished() {
        give(response(live, alloc), text, text_length)
    } else {
        give_text(UNFINISHED, status::REFUSED, text, text_length)
    }
}

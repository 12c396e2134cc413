//! What is tried with the answers to a part: starts and reports of its requests, pass by pass.

ghost use Rattle.std.specs.Prelude.{◌≡◌, ◌≢◌, ◌++◌, ℕ, List, All, Err, IfErr, IfOk, OnOk, Some, length};
ghost use Rattle.odb_spans.specs.Spans.{IsWithin};
ghost use Rattle.odb_doc.specs.declared.refusal.Refusal.{Refusal};
ghost use Rattle.odb_engine.specs.declared.halt.Halt.TheVariants as halts;
ghost use Rattle.odb_engine.specs.Halts.{Halted};
ghost use Rattle.odb_live.specs.Replies.{LiesIn};
ghost use Rattle.odb_calls.specs.Steps as specs;
ghost use Rattle.odb_sched.specs.declared.policy.Mode.TheVariants.{Stop};

use crate::outcome::{body_of, no_content, outcome_of};
use odb_doc::Outcome;
use odb_doc::status::{FAILED_DEPENDENCY, is_error, is_success};
use odb_engine::Halt;
use odb_live::Reply;
use odb_reply::{JsonText, ResponseFault};
use odb_sched::Mode;
use odb_spans::Span;
use std::alloc::{AllocError, Global};

/// A start or a report that is tried.
#[derive(Drop)]
pub enum Step {
    /// The start of the unit of the request at a position.
    StartUnit(u32),
    /// The start of the request alone.
    Start(u32),
    /// The report of the request with an outcome, and with a body as text if it has one.
    Report(u32, Outcome, Option<JsonText>),
}

/// Which answers are in a pass, and what is tried with them.
#[derive(Clone, Copy)]
pub enum Pass {
    /// All: the unit of each is started, and it is reported.
    Each,
    /// The successes, which are started and reported one by one.
    Successes,
    /// The same with those that are neither a success nor an error.
    Others,
    /// The same, whose unit is started as one if they may not start alone: they depend on a member that was undone.
    OtherUnits,
    /// The errors but 424, of which all are started before one is reported.
    ErrorStarts,
    /// The same, which are reported now.
    Errors,
    /// What is neither a success nor such an error: 424 too.
    Skipped,
}

/// Returns whether a status is an error of the request itself: from 400 to 599, but not 424.
fn is_own_error(status: u16) -> bool
    ensures { result ≡ specs.is_own_error status }
{
    is_error(status) && status != FAILED_DEPENDENCY
}

impl Pass {
    /// Returns whether an answer with this status is in the pass.
    fn has(self, status: u16) -> bool
        ensures { result ≡ specs.has self status }
    {
        match self {
            Pass::Each => true,
            Pass::Successes => is_success(status),
            Pass::Others => !is_success(status) && !is_error(status),
            Pass::OtherUnits => !is_success(status) && !is_error(status),
            Pass::ErrorStarts => is_own_error(status),
            Pass::Errors => is_own_error(status),
            Pass::Skipped => !is_success(status) && !is_own_error(status),
        }
    }

    /// Returns whether the unit of a request is started.
    fn starts_unit(self) -> bool
        ensures { result ≡ specs.starts_unit self }
    {
        matches!(
            self,
            Pass::Each | Pass::OtherUnits | Pass::ErrorStarts | Pass::Errors
        )
    }

    /// Returns whether a request is started alone.
    fn starts_alone(self) -> bool
        ensures { result ≡ specs.starts_alone self }
    {
        !matches!(self, Pass::Each | Pass::OtherUnits)
    }

    /// Returns whether a request is reported.
    fn reports(self) -> bool
        ensures { result ≡ specs.reports self }
    {
        !matches!(self, Pass::ErrorStarts)
    }
}

/// Returns the bytes of a span of the document, and none if there is no span.
fn bytes_at(document: &[u8], span: Option<Span>) -> &[u8]
    requires { IsWithin (length document.now) span }
    ensures { result.now ≡ specs.bytes_at document.now span }
{
    match span {
        Some(span) => span.bytes_in(document),
        None => b"",
    }
}

/// Returns the halt by the headers or the body of the response at a place: F70 if they are refused.
fn at_response(halt: Halt, place: usize) -> Halt
    requires { halt ≢ halts.Read }
    ensures refused { Halted (λ refusal. specs.IsBadResponse place refusal
        × ((why : Refusal) × (halt ≡ halts.Refused why))) result }
    ensures read { result ≢ halts.Read }
{
    match halt {
        Halt::Refused(_) => Halt::from(ResponseFault::Response { at: place }),
        Halt::Read | Halt::OutOfMemory => Halt::OutOfMemory,
    }
}

/// Returns the report of a request with its answer.
fn report_of(alloc: Global, document: &[u8], reply: Reply) -> Result<Step, Halt>
    requires { LiesIn document.now reply }
    ensures step { IfOk result (specs.IsStep document.now (specs.Report reply)) }
    ensures refused { IfErr result (Halted (specs.RefusesReply document.now reply)) }
    ensures read { result ≢ Err halts.Read }
{
    let headers = bytes_at(document, reply.headers);
    let outcome = match outcome_of(alloc, u32::from(reply.status), headers) {
        Ok(outcome) => outcome,
        Err(halt) => return Err(at_response(halt, reply.place)),
    };
    match body_of(alloc, bytes_at(document, reply.body)) {
        Ok(body) => Ok(Step::Report(reply.position, outcome, body)),
        Err(halt) => Err(at_response(halt, reply.place)),
    }
}

/// Appends a step if it is wanted.
fn push_if(steps: &mut Vec<Step>, step: Step, wanted: bool) -> Result<(), AllocError>
    ensures { OnOk result (steps.new.items ≡ steps.old.items ++ specs.if_wanted wanted step) }
{
    if wanted {
        steps.push(step)?;
    }
    Ok(())
}

/// Appends the report of a request with its answer if it is wanted.
fn push_report_if(
    alloc: Global,
    steps: &mut Vec<Step>,
    document: &[u8],
    reply: Reply,
    wanted: bool,
) -> Result<(), Halt>
    requires { LiesIn document.now reply }
    ensures steps { OnOk result (specs.Adds document.now (specs.if_wanted wanted (specs.Report reply))
        steps.old.items steps.new.items) }
    ensures refused { IfErr result (Halted (specs.RefusesReply document.now reply)) }
    ensures read { result ≢ Err halts.Read }
{
    if wanted {
        let step = report_of(alloc, document, reply)?;
        push_if(steps, step, true)?;
    }
    Ok(())
}

/// Appends what is tried with an answer in a pass.
fn push_attempts(
    alloc: Global,
    steps: &mut Vec<Step>,
    document: &[u8],
    reply: Reply,
    pass: Pass,
) -> Result<(), Halt>
    requires { LiesIn document.now reply }
    ensures steps { OnOk result (specs.Adds document.now (specs.attempts_with pass reply) steps.old.items steps.new.items) }
    ensures refused { IfErr result (Halted (specs.RefusesReply document.now reply)) }
    ensures read { result ≢ Err halts.Read }
{
    push_if(steps, Step::StartUnit(reply.position), pass.starts_unit())?;
    push_if(steps, Step::Start(reply.position), pass.starts_alone())?;
    push_report_if(alloc, steps, document, reply, pass.reports())
}

/// Appends what is tried with an answer in a pass, if it is in the pass.
fn push_reply(
    alloc: Global,
    steps: &mut Vec<Step>,
    document: &[u8],
    reply: Reply,
    pass: Pass,
) -> Result<(), Halt>
    requires { LiesIn document.now reply }
    ensures steps { OnOk result (specs.Adds document.now (specs.attempts_at pass (Some reply)) steps.old.items steps.new.items) }
    ensures refused { IfErr result (Halted (specs.RefusesReply document.now reply)) }
    ensures read { result ≢ Err halts.Read }
{
    if pass.has(reply.status) {
        return push_attempts(alloc, steps, document, reply, pass);
    }
    Ok(())
}

/// Appends what is tried in a pass over the answers.
fn push_pass(
    alloc: Global,
    steps: &mut Vec<Step>,
    document: &[u8],
    replies: &[Reply],
    pass: Pass,
) -> Result<(), Halt>
    requires { All (LiesIn document.now) replies.now }
    ensures steps { OnOk result (specs.Adds document.now (specs.attempts_in pass replies.now) steps.old.items steps.new.items) }
    ensures refused { IfErr result (Halted (specs.RefusesOne document.now replies.now)) }
    ensures read { result ≢ Err halts.Read }
{
    for k in 0..replies.len() {
        push_reply(alloc, steps, document, replies[k], pass)?;
    }
    Ok(())
}

/// Appends the report of a request that was answered 424 as that of a success, which its group has undone.
fn push_undone(alloc: Global, steps: &mut Vec<Step>, reply: Reply) -> Result<(), AllocError>
    ensures { OnOk result ((document : List ℕ) → specs.Adds document (specs.undone_at (Some reply)) steps.old.items steps.new.items) }
{
    let step = Step::Report(reply.position, no_content(), None);
    push_if(steps, step, reply.status == FAILED_DEPENDENCY)
}

/// Appends these reports of all requests that were answered 424.
fn push_all_undone(
    alloc: Global,
    steps: &mut Vec<Step>,
    replies: &[Reply],
) -> Result<(), AllocError>
    ensures { OnOk result ((document : List ℕ) → specs.Adds document (specs.undone_in replies.now) steps.old.items steps.new.items) }
{
    for k in 0..replies.len() {
        push_undone(alloc, steps, replies[k])?;
    }
    Ok(())
}

/// Appends them unless the service stops at an error.
fn push_undone_unless(
    alloc: Global,
    steps: &mut Vec<Step>,
    replies: &[Reply],
    stops: bool,
) -> Result<(), AllocError>
    ensures { OnOk result ((document : List ℕ) → specs.Adds document (specs.undone_unless stops replies.now) steps.old.items steps.new.items) }
{
    if stops {
        return Ok(());
    }
    push_all_undone(alloc, steps, replies)
}

/// Returns whether a request has an error of its own, at which the service stops.
fn has_own_error(replies: &[Reply]) -> bool
    ensures { result ≡ specs.has_own_error replies.now }
{
    replies.iter().any(|reply| is_own_error(reply.status))
}

/// Returns the steps by which the answers to a part reach its run, by what an error does to the service. If it stops, all errors are
/// kept: their requests are started before one of them is reported.
pub fn steps_of(
    alloc: Global,
    document: &[u8],
    replies: &[Reply],
    mode: Mode,
) -> Result<Vec<Step>, Halt>
    requires { All (LiesIn document.now) replies.now }
    ensures steps { IfOk result (λ made. specs.AreSteps document.now (specs.attempts mode replies.now) made.items) }
    ensures refused { IfErr result (Halted (specs.RefusesOne document.now replies.now)) }
    ensures read { result ≢ Err halts.Read }
{
    let mut steps = Vec::new(alloc);
    match mode {
        Mode::Continue => push_pass(alloc, &mut steps, document, replies, Pass::Each)?,
        Mode::Stop => push_passes(alloc, &mut steps, document, replies)?,
    }
    Ok(steps)
}

/// Appends what is tried in the passes for a service that stops.
fn push_passes(
    alloc: Global,
    steps: &mut Vec<Step>,
    document: &[u8],
    replies: &[Reply],
) -> Result<(), Halt>
    requires { All (LiesIn document.now) replies.now }
    ensures steps { OnOk result (specs.Adds document.now (specs.attempts Stop replies.now) steps.old.items steps.new.items) }
    ensures refused { IfErr result (Halted (specs.RefusesOne document.now replies.now)) }
    ensures read { result ≢ Err halts.Read }
{
    push_pass(alloc, steps, document, replies, Pass::Successes)?;
    push_pass(alloc, steps, document, replies, Pass::ErrorStarts)?;
    push_pass(alloc, steps, document, replies, Pass::Others)?;
    push_pass(alloc, steps, document, replies, Pass::OtherUnits)?;
    push_pass(alloc, steps, document, replies, Pass::Errors)?;
    push_undone_unless(alloc, steps, replies, has_own_error(replies))?;
    push_pass(alloc, steps, document, replies, Pass::Skipped)
}

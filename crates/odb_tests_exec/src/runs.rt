//! Runs of plans: what each event may do, which requests are ready and which run after it, and what
//! each request is answered in the end.

mod ends;
mod events;
mod executions;
mod listed;
mod picks;
mod recordings;
mod units;

ghost use Rattle.std.specs.Prelude.{◌≡◌, ◌<◌};
ghost use Rattle.odb_sched.specs.run.State.{size};

use odb_doc::Outcome;
use odb_sched::{Mode, Policy, ReportRefusal, Scheduler};
use serde_json::Value;
use std::alloc::Global;
use std::collections::BTreeMap;

/// Two requests that do not depend on each other, and a third that depends on the first.
const THREE: &str = r#"{"requests":[{"id":"r","method":"get","url":"X"},
    {"id":"t","method":"get","url":"X"},
    {"id":"s","method":"get","url":"X","dependsOn":["r"]}]}"#;

/// A group whose second request refers to its first.
const REFERENCE: &str = r#"{"requests":[
    {"id":"1","method":"delete","url":"X","atomicityGroup":"g"},
    {"id":"2","method":"delete","url":"$1/Orders","atomicityGroup":"g"}]}"#;

/// A group of three.
const GROUP: &str = r#"{"requests":[{"id":"p","method":"delete","url":"X","atomicityGroup":"g"},
    {"id":"q","method":"delete","url":"X","atomicityGroup":"g"},
    {"id":"r","method":"delete","url":"X","atomicityGroup":"g"}]}"#;

/// A group of two whose second request depends on another, and a request that depends on the group.
pub const PASSED_ON: &str = r#"{"requests":[{"id":"a","method":"get","url":"X"},
    {"id":"p","method":"delete","url":"X","atomicityGroup":"g"},
    {"id":"q","method":"delete","url":"X","atomicityGroup":"g","dependsOn":["a"]},
    {"id":"r","method":"get","url":"X","dependsOn":["g"]}]}"#;

/// A policy of this width, or a free one where the width is 0.
pub fn policy(mode: Mode, width: u32) -> Policy {
    Policy::new(mode, width).unwrap_or(Policy::free(mode))
}

/// An outcome with this status and the body `true`.
pub fn outcome(alloc: Global, status: u16) -> Outcome {
    let body = Some(Value::Bool(true));
    match Outcome::new(alloc, status, BTreeMap::new(alloc), body) {
        Ok(outcome) => outcome,
        Err(_) => Outcome::bare(status),
    }
}

/// Whether an outcome is this one.
fn is_outcome(outcome: &Outcome, status: u16) -> bool {
    outcome.status == status && matches!(outcome.body(), Some(Value::Bool(true)))
}

/// The code of the refusal of a start, or `ok`.
fn start_code(scheduler: &mut Scheduler<'_>, i: u32) -> &'static str
    requires { i < size scheduler.old }
    ensures { size scheduler.new ≡ size scheduler.old }
{
    match scheduler.start(i) {
        Ok(()) => "ok",
        Err(cause) => cause.code(),
    }
}

/// The code of the refusal of a report that hands back the outcome with this status, or `ok`.
fn refusal_code(refusal: &Result<(), (ReportRefusal, Outcome)>, status: u16) -> &'static str {
    match refusal {
        Ok(()) => "ok",
        Err((cause, back)) if is_outcome(back, status) => cause.code(),
        Err(_) => "another outcome",
    }
}

/// The code of the refusal of a report with this status, or of a start where the status is 0; or
/// `ok`.
fn code_of(alloc: Global, scheduler: &mut Scheduler<'_>, i: u32, status: u16) -> &'static str
    requires { i < size scheduler.old }
    ensures { size scheduler.new ≡ size scheduler.old }
{
    if status == 0 {
        return start_code(scheduler, i);
    }
    refusal_code(&scheduler.report(i, outcome(alloc, status)), status)
}

//! The command `run`: the response of a run with recorded events.

ghost use Rattle.std.specs.Prelude.{◌≡◌, ◌≢◌, ◌⊎◌, true, false, Some, Err, IsTrue, IfErr, IfOk, OnErr, OnOk};
ghost use Rattle.serde_json.specs.View.{view};
ghost use Rattle.odb_doc.specs.recorded.EventLists.{entries};
ghost use Rattle.odb_check.specs.Plans.{plan_records};
ghost use Rattle.odb_sched.specs.run.Steps.{is_finished};
ghost use Rattle.odb_reply.specs.NotWhole.{HasWholeBodies};
ghost use Rattle.odb_engine.specs.declared.ending.Ended.TheVariants as ends;
ghost use Rattle.odb_engine.specs.declared.form.Form.{Form};
ghost use Rattle.odb_engine.specs.declared.form.Form.TheVariants.{Lines};
ghost use Rattle.odb_engine.specs.declared.halt.Halt.TheVariants as halts;
ghost use Rattle.odb_engine.specs.Cascade.{Answers};
ghost use Rattle.odb_engine.specs.Engines.{Ends};
ghost use Rattle.odb_engine.specs.Contents.{AskedFor};
ghost use Rattle.odb_engine.specs.Inputs.{IsFresh, ReadsFew, SomeDocument};
ghost use Rattle.odb_engine.specs.ResponseLines.{response_line};
ghost use Rattle.odb_engine.specs.Rules.{rule_row};
ghost use Rattle.odb_engine.specs.Runs as runs;
ghost use Rattle.odb_engine.specs.Halts.{Found, Halted, HaltsBy};

use crate::disposal::DropOrLeak;
use crate::ending::{Ended, EngineFault};
use crate::halt::Halt;
use crate::rule::EngineRule;
use crate::tasks::documents::answer_by_default;
use crate::tasks::response::push_response;
use crate::tasks::task::Task;
use odb_check::Plan;
use odb_doc::{Disposal, Events};
use odb_io::{Input, Output};
use odb_reply::laws::every_response;
use odb_sched::laws::every_possible;
use odb_sched::{Done, Policy, Scheduler, resolve_with, run};
use serde_json::Value;
use std::alloc::Global;
use std::io::{Read, Write};

/// Returns the events in a value.
fn events_of(alloc: Global, value: Value, disposal: Disposal) -> Result<Events, Halt>
    ensures events { IfOk result (λ events. runs.IsHistoryOf (view value) (entries events)) }
    ensures least { IfErr result (Halted (runs.IsFaultOfEvents (view value))) }
    ensures read { result ≢ Err halts.Read }
{
    let (events, rest) = Events::split(alloc, value)?;
    rest.end(disposal);
    Ok(events)
}

/// Returns a run that is finished.
///
/// # Errors
///
/// `Refused` by F66 if and only if it is not.
fn finished<'p>(scheduler: Scheduler<'p>, disposal: Disposal) -> Result<Done<'p>, Halt>
    ensures done { IfOk result (λ done. done ≡ scheduler.entry) }
    ensures finished { OnOk result (is_finished scheduler.entry ≡ true) }
    ensures least { IfErr result (HaltsBy (Some (rule_row EngineRule.Unfinished))) }
    ensures unfinished { OnErr result (is_finished scheduler.entry ≡ false) }
{
    if !scheduler.is_finished() {
        drop(DropOrLeak {
            value: scheduler,
            disposal,
        });
        return Err(Halt::from(EngineRule::Unfinished));
    }
    Ok(scheduler.close())
}

/// Returns the finished run of a plan by recorded events.
fn done_of<'a: 'p, 'p>(
    alloc: Global,
    plan: &'p Plan<'a>,
    events: Events,
    policy: Policy,
    disposal: Disposal,
) -> Result<Done<'p>, Halt>
    ensures result { IfOk result (λ done. runs.IsResult policy (plan_records plan.now) (entries events) ends.Done
        (response_line done)) }
    ensures whole { IfOk result (λ done. HasWholeBodies done) }
    ensures least { IfErr result
        (Halted (runs.IsLeastOfRun policy (plan_records plan.now) (entries events))) }
    ensures read { result ≢ Err halts.Read }
{
    // Only a call on the events states that they are sound.
    let _count = events.len();
    let resolved = resolve_with(alloc, plan, events, disposal)?;
    let scheduler = run(alloc, plan, policy, resolved)?;
    let done = finished(scheduler, disposal)?;
    every_response(&done);
    every_possible(plan);
    Ok(done)
}

/// Returns the response to a run by the events in a value.
pub fn ran(
    alloc: Global,
    plan: &Plan<'_>,
    value: Value,
    policy: Policy,
    disposal: Disposal,
) -> Result<String, Halt>
    ensures found { (form : Form) → Found (runs.RunsValue policy (plan_records plan.now) (view value)) form
        result }
    ensures read { result ≢ Err halts.Read }
{
    let events = events_of(alloc, value, disposal)?;
    let done = DropOrLeak {
        value: done_of(alloc, plan, events, policy, disposal)?,
        disposal,
    };
    let mut text = String::new(alloc);
    push_response(alloc, &mut text, &done.value)?;
    Ok(text)
}

/// Runs the batch in a document by the recorded events in another: writes the response if every event
/// may come and the run is finished; or the line of a fault.
///
/// The inputs must be new, and the output must not have failed. The policy sets whether an error stops
/// the run and how many requests may run at once. The events are read only if the check accepts the
/// batch. [`crate::answer_documents`] takes a [`Setup`] too.
///
/// The faults come in this order: those of the batch; those of the events document; F65 of the first
/// event that names no request; the first event that may not come, with its first cause, S1 to S5 or
/// P1 and P2; and F66 if the run is not finished.
///
/// Both documents and the response are held in memory. Takes O(n log n) time for n bytes of documents and
/// output.
///
/// Example: `called_plainly` in crates/odb_tests_tasks/src/engines.rt.
///
/// # Errors
///
/// - `Read` if and only if an input failed; nothing was written.
/// - `Write` if and only if the output failed; it has received a prefix of what is written.
/// - `OutOfMemory` if an allocation fails; nothing was written.
pub fn run_batch<R: Read, S: Read, W: Write>(
    alloc: Global,
    batch: &mut Input<R>,
    events: &mut Input<S>,
    output: &mut Output<W>,
    policy: Policy,
) -> Result<Ended, EngineFault>
    requires batch { IsFresh batch.old }
    requires events { IsFresh events.old }
    requires output { output.old.failed ≡ false }
    ensures ends { SomeDocument (R.remaining batch.old.reader) (λ bytes. Ends W.contents
        (Answers (runs.Runs policy (S.remaining events.old.reader)) bytes Lines)
        (IsTrue batch.new.failed ⊎ IsTrue events.new.failed) output.old output.new result
        × AskedFor R.remaining batch.old batch.new bytes events.old events.new) }
    ensures memory { result ≡ Err EngineFault.OutOfMemory → output.new ≡ output.old }
    ensures batch { ReadsFew R.remaining batch.old batch.new }
    ensures events { ReadsFew S.remaining events.old events.new }
{
    answer_by_default(alloc, batch, events, output, Task::Run { policy })
}

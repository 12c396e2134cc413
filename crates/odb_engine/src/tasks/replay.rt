//! The command `replay`: the response of a run with recorded outcomes.

ghost use Rattle.std.specs.Prelude.{◌≡◌, ◌≢◌, ◌<◌, ◌⊎◌, Bool, All, false, Err, IsTrue, IfErr, IfOk};
ghost use Rattle.serde_json.specs.View.{view};
ghost use Rattle.odb_doc.specs.declared.fault.Place.TheVariants as places;
ghost use Rattle.odb_doc.specs.recorded.OutcomeLists.{entries};
ghost use Rattle.odb_check.specs.Plans.{plan_records};
ghost use Rattle.odb_sched.specs.run.State.{size};
ghost use Rattle.odb_sched.specs.run.Choosing.{AllowsOrder, position_in};
ghost use Rattle.odb_reply.specs.NotWhole.{HasWholeBodies};
ghost use Rattle.odb_engine.specs.declared.ending.Ended.TheVariants.{Done};
ghost use Rattle.odb_engine.specs.declared.form.Form.{Form};
ghost use Rattle.odb_engine.specs.declared.form.Form.TheVariants.{Lines};
ghost use Rattle.odb_engine.specs.declared.halt.Halt.TheVariants as halts;
ghost use Rattle.odb_engine.specs.Cascade.{Answers};
ghost use Rattle.odb_engine.specs.Contents.{AskedFor};
ghost use Rattle.odb_engine.specs.Engines.{Ends};
ghost use Rattle.odb_engine.specs.Inputs.{IsFresh, ReadsFew, SomeDocument};
ghost use Rattle.odb_engine.specs.Replays as replays;
ghost use Rattle.odb_engine.specs.Halts.{Found, Halted};

use crate::disposal::DropOrLeak;
use crate::ending::{Ended, EngineFault};
use crate::halt::Halt;
use crate::setup::Setup;
use crate::tasks::command::Command;
use crate::tasks::documents::answer_by_default;
use crate::tasks::response::push_response;
use odb_check::Plan;
use odb_doc::{Batch, Disposal, Outcomes, Place};
use odb_exec::{Chooser, Recorded, Trace, execute};
use odb_io::{Input, Output};
use odb_reply::laws::every_response;
use odb_sched::laws::every_possible;
use odb_sched::{Order, Policy};
use odb_text::trace_part;
use serde_json::Value;
use std::alloc::Global;
use std::io::{Read, Write};

/// Returns the outcomes in a value.
fn outcomes_of(alloc: Global, value: Value, disposal: Disposal) -> Result<Outcomes, Halt>
    ensures outcomes { IfOk result (λ outcomes. replays.IsRecordOf (view value) (entries outcomes)) }
    ensures least { IfErr result (Halted (replays.IsFaultOfOutcomes (view value))) }
    ensures read { result ≢ Err halts.Read }
{
    let (outcomes, rest) = Outcomes::split(alloc, value)?;
    rest.end(disposal);
    Ok(outcomes)
}

/// Executes a plan by recorded outcomes.
fn run_of<'a: 'p, 'p>(
    alloc: Global,
    plan: &'p Plan<'a>,
    outcomes: Outcomes,
    chooser: &mut dyn Chooser,
    policy: Policy,
    disposal: Disposal,
) -> Result<Trace<'p>, Halt>
    ensures result { IfOk result (λ trace. (traced : Bool) → replays.IsResult (allows chooser.old)
        policy traced (plan_records plan.now) (entries outcomes) Done
        (replays.result_text traced trace.done trace.steps.items)) }
    ensures within { IfOk result (λ trace.
        All (λ step. position_in step < size trace.done) trace.steps.items) }
    ensures whole { IfOk result (λ trace. HasWholeBodies trace.done) }
    ensures lacks { IfErr result (Halted (replays.LacksOutcome (allows chooser.old) policy
        (plan_records plan.now) (entries outcomes))) }
    ensures read { result ≢ Err halts.Read }
{
    // Only a call on the outcomes states that they are sound.
    let _count = outcomes.len();
    let mut service = DropOrLeak {
        value: Recorded::with_disposal(alloc, plan, outcomes, disposal)?,
        disposal,
    };
    let trace = execute(alloc, plan, policy, chooser, &mut service.value)?;
    every_response(&trace.done);
    every_possible(plan);
    Ok(trace)
}

/// Returns the result of an execution by the outcomes in a value, in the order of a chooser.
fn replayed_by(
    alloc: Global,
    plan: &Plan<'_>,
    value: Value,
    chooser: &mut dyn Chooser,
    policy: Policy,
    traced: bool,
    disposal: Disposal,
) -> Result<String, Halt>
    ensures found { (form : Form) → Found (replays.ReplaysValue (allows chooser.old) policy traced
        (plan_records plan.now) (view value)) form result }
    ensures read { result ≢ Err halts.Read }
{
    let outcomes = outcomes_of(alloc, value, disposal)?;
    let trace = DropOrLeak {
        value: run_of(alloc, plan, outcomes, chooser, policy, disposal)?,
        disposal,
    };
    let mut text = trace_part(alloc, &trace.value.done, &trace.value.steps, traced)?;
    push_response(alloc, &mut text, &trace.value.done)?;
    Ok(text)
}

/// Returns the result of an execution by the outcomes in a value, in an order.
pub fn replayed(
    alloc: Global,
    plan: &Plan<'_>,
    value: Value,
    order: Order,
    policy: Policy,
    traced: bool,
    disposal: Disposal,
) -> Result<String, Halt>
    ensures found { (form : Form) → Found (replays.ReplaysValue (AllowsOrder order) policy traced
        (plan_records plan.now) (view value)) form result }
    ensures read { result ≢ Err halts.Read }
{
    let mut order = order;
    replayed_by(alloc, plan, value, &mut order, policy, traced, disposal)
}

/// A replay in the order of a chooser. `C` is `&mut dyn Chooser`: a field cannot have that type itself.
#[derive(Drop)]
struct Replay<C> {
    policy: Policy,
    chooser: C,
    traced: bool,
}

impl<'c> Command for Replay<&'c mut dyn Chooser> {
    ghost use Rattle.std.specs.Prelude.{Some, false};
    ghost use Rattle.odb_engine.specs.Accepted.{never_lists};

    ghost writes = { λ self _ second batch. replays.ReplaysValue
        ((Chooser-dyn self.chooser.now).allows self.chooser.now.1) self.policy self.traced batch second };

    ghost lists_all = { λ _. false };

    fn lists_all(&self) -> bool {
        false
    }

    ghost takes_bytes = { λ _. false };

    fn takes_bytes(&self) -> bool {
        false
    }

    ghost second_place = { λ _. Some places.Outcomes };

    fn second_place(&self) -> Option<Place> {
        Some(Place::Outcomes)
    }

    fn text(
        &mut self,
        alloc: Global,
        _document: &[u8],
        _batch: &Batch<'_>,
        plan: &Plan<'_>,
        second: Value,
        setup: Setup,
    ) -> Result<String, Halt> {
        replayed_by(
            alloc,
            plan,
            second,
            &mut *self.chooser,
            self.policy,
            self.traced,
            setup.disposal,
        )
    }

    ghost alone = { λ _ lists. absurd (never_lists lists) };

    ghost accepts = { λ _ lists document second batch form text so. never_lists lists };

    ghost alike = { λ _ document other same second batch form ended text so. so };
}

/// Replays the batch in a document by the recorded outcomes in another: writes the response, after
/// the trace of the steps if `traced` is set; or the line of a fault.
///
/// The inputs must be new, and the output must not have failed. The chooser gives the order, and the
/// policy whether an error stops the run and how many requests may run at once. The outcomes are read
/// only if the check accepts the batch. [`crate::answer_documents`] takes a [`Setup`] too, and an order by its name.
///
/// Both documents, the trace and the response are held in memory. If the chooser follows an order, takes
/// O(n log n) time for n bytes of documents and output; else the chooser is asked at each step.
///
/// Example: `called` in crates/odb_tests_tasks/src/engines.rt.
///
/// # Errors
///
/// - `Read` if and only if an input failed; nothing was written.
/// - `Write` if and only if the output failed; it has received a prefix of what is written.
/// - `OutOfMemory` if an allocation fails; nothing was written.
pub fn replay_batch<R: Read, S: Read, W: Write>(
    alloc: Global,
    batch: &mut Input<R>,
    outcomes: &mut Input<S>,
    output: &mut Output<W>,
    policy: Policy,
    chooser: &mut dyn Chooser,
    traced: bool,
) -> Result<Ended, EngineFault>
    requires batch { IsFresh batch.old }
    requires outcomes { IsFresh outcomes.old }
    requires output { output.old.failed ≡ false }
    ensures ends { SomeDocument (R.remaining batch.old.reader) (λ bytes. Ends W.contents
        (Answers (replays.Replays (allows chooser.old) policy traced
        (S.remaining outcomes.old.reader)) bytes Lines)
        (IsTrue batch.new.failed ⊎ IsTrue outcomes.new.failed) output.old output.new result
        × AskedFor R.remaining batch.old batch.new bytes outcomes.old outcomes.new) }
    ensures memory { result ≡ Err EngineFault.OutOfMemory → output.new ≡ output.old }
    ensures batch { ReadsFew R.remaining batch.old batch.new }
    ensures outcomes { ReadsFew S.remaining outcomes.old outcomes.new }
{
    let replay = Replay {
        policy,
        chooser,
        traced,
    };
    answer_by_default(alloc, batch, outcomes, output, replay)
}

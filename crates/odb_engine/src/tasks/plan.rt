//! The command `plan`: the units, levels and dependencies of a batch, or a drawing of them.

ghost use Rattle.std.specs.Prelude.{◌≡◌, ◌≢◌, false, Err, IsTrue};
ghost use Rattle.odb_check.specs.Plans.{plan_records};
ghost use Rattle.odb_engine.specs.Inputs.{IsFresh, ReadsFew, SomeDocument};
ghost use Rattle.odb_engine.specs.Cascade.{Answers};
ghost use Rattle.odb_engine.specs.Engines.{Ends};
ghost use Rattle.odb_engine.specs.Halts.{Found};
ghost use Rattle.odb_engine.specs.declared.form.Form.{Form};
ghost use Rattle.odb_engine.specs.declared.form.Form.TheVariants.{Lines};
ghost use Rattle.odb_engine.specs.declared.halt.Halt.TheVariants as halts;
ghost use Rattle.odb_engine.specs.Commands as commands;
ghost use Rattle.odb_engine.specs.FullPlans.{ShowsPlaces};
ghost use Rattle.odb_engine.specs.Tasks.{PlansBy};

use crate::ending::{Ended, EngineFault};
use crate::form::Form;
use crate::halt::Halt;
use crate::tasks::task::{Task, answer_one};
use odb_check::Plan;
use odb_io::{Input, Output};
use odb_spans::bodies_in;
use odb_text::{drawing_text, full_plan_json, plan_json};
use std::alloc::Global;
use std::io::{Read, Write};

/// Returns the plan in a form.
fn planned_text(alloc: Global, plan: &Plan<'_>, form: Form) -> Result<String, Halt>
    ensures found { Found (commands.Plans (plan_records plan.now)) form result }
    ensures read { result ≢ Err halts.Read }
{
    match form {
        Form::Lines => Ok(plan.text(alloc)?),
        Form::Json => Ok(plan_json(alloc, plan)?),
    }
}

/// Returns the full plan of the batch in a document, which is JSON in each form.
fn full_plan_text(alloc: Global, document: &[u8], plan: &Plan<'_>) -> Result<String, Halt>
    ensures found { (form : Form) → Found (ShowsPlaces document.now (plan_records plan.now)) form result }
    ensures read { result ≢ Err halts.Read }
{
    let bodies = bodies_in(alloc, document)?;
    Ok(full_plan_json(alloc, plan, &bodies)?)
}

/// Returns the plan in a form, or the full plan of the batch in a document.
pub fn planned_by(
    alloc: Global,
    document: &[u8],
    plan: &Plan<'_>,
    full: bool,
    form: Form,
) -> Result<String, Halt>
    ensures found { Found (PlansBy full document.now (plan_records plan.now)) form result }
    ensures read { result ≢ Err halts.Read }
{
    if full {
        full_plan_text(alloc, document, plan)
    } else {
        planned_text(alloc, plan, form)
    }
}

/// Returns the drawing of the plan.
pub fn drawn_text(alloc: Global, plan: &Plan<'_>) -> Result<String, Halt>
    ensures found { (form : Form) → Found (commands.Drawings (plan_records plan.now)) form result }
    ensures read { result ≢ Err halts.Read }
{
    Ok(drawing_text(alloc, plan)?)
}

/// Plans the batch in a document: writes a line per request, or the line of its first fault.
///
/// The arguments are those of [`crate::check_batch`], and so is the cost; the text of the plan is held in
/// memory too.
///
/// Example: `called` in crates/odb_tests_tasks/src/engines.rt.
///
/// # Errors
///
/// Those of [`crate::check_batch`].
pub fn plan_batch<R: Read, W: Write>(
    alloc: Global,
    input: &mut Input<R>,
    output: &mut Output<W>,
) -> Result<Ended, EngineFault>
    requires input { IsFresh input.old }
    requires output { output.old.failed ≡ false }
    ensures ends { SomeDocument (R.remaining input.old.reader) (λ bytes. Ends W.contents
        (Answers commands.Plans bytes Lines) (IsTrue input.new.failed)
        output.old output.new result) }
    ensures memory { result ≡ Err EngineFault.OutOfMemory → output.new ≡ output.old }
    ensures reads { ReadsFew R.remaining input.old input.new }
{
    answer_one(alloc, input, output, Task::Plan { full: false })
}

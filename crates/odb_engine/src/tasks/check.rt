//! The command `check`: whether a batch is accepted.

ghost use Rattle.std.specs.Prelude.{◌≡◌, ◌≢◌, false, Err, IsTrue};
ghost use Rattle.odb_check.specs.Plans.{plan_records};
ghost use Rattle.odb_engine.specs.Inputs.{IsFresh, ReadsFew, SomeDocument};
ghost use Rattle.odb_engine.specs.Cascade.{Answers};
ghost use Rattle.odb_engine.specs.Engines.{Ends};
ghost use Rattle.odb_engine.specs.Halts.{Found};
ghost use Rattle.odb_engine.specs.declared.form.Form.TheVariants.{Lines};
ghost use Rattle.odb_engine.specs.declared.halt.Halt.TheVariants as halts;
ghost use Rattle.odb_engine.specs.Commands as commands;

use crate::ending::{Ended, EngineFault};
use crate::form::Form;
use crate::halt::Halt;
use crate::tasks::task::{Task, answer_one};
use odb_check::Plan;
use odb_io::{Input, Output};
use odb_text::{accepted_line, counts_json};
use std::alloc::Global;
use std::io::{Read, Write};

/// Returns how many requests and groups there are, in a form.
pub fn counts_text(alloc: Global, plan: &Plan<'_>, form: Form) -> Result<String, Halt>
    ensures found { Found (commands.Counts (plan_records plan.now)) form result }
    ensures read { result ≢ Err halts.Read }
{
    let (requests, groups) = (plan.len(), plan.group_count());
    match form {
        Form::Lines => Ok(accepted_line(alloc, requests, groups)?),
        Form::Json => Ok(counts_json(alloc, requests, groups)?),
    }
}

/// Checks the batch in a document: writes the line of its counts, or of its first fault.
///
/// The input must be new, and the output must not have failed. Names are looked up without a seed, and
/// the document is dropped at the end; [`crate::answer_documents`] takes a [`crate::Setup`] for both, and for the
/// form.
///
/// Takes O(n log n) time and O(n) memory for a document of n bytes.
///
/// Example: `check_line` in crates/odb_tests_tasks/src/examples.rt.
///
/// # Errors
///
/// - `Read` if and only if the input failed; nothing was written.
/// - `Write` if and only if the output failed; it has received a prefix of the text.
/// - `OutOfMemory` if an allocation fails; nothing was written.
pub fn check_batch<R: Read, W: Write>(
    alloc: Global,
    input: &mut Input<R>,
    output: &mut Output<W>,
) -> Result<Ended, EngineFault>
    requires input { IsFresh input.old }
    requires output { output.old.failed ≡ false }
    ensures ends { SomeDocument (R.remaining input.old.reader) (λ bytes. Ends W.contents
        (Answers commands.Counts bytes Lines) (IsTrue input.new.failed)
        output.old output.new result) }
    ensures memory { result ≡ Err EngineFault.OutOfMemory → output.new ≡ output.old }
    ensures reads { ReadsFew R.remaining input.old input.new }
{
    answer_one(alloc, input, output, Task::Check { all: false })
}

//! The command `canon`: the canonical text of a batch.

ghost use Rattle.std.specs.Prelude.{◌≡◌, ◌≢◌, false, Err, IsTrue};
ghost use Rattle.odb_doc.specs.batch.Batches.{records};
ghost use Rattle.odb_engine.specs.declared.form.Form.{Form};
ghost use Rattle.odb_engine.specs.declared.form.Form.TheVariants.{Lines};
ghost use Rattle.odb_engine.specs.declared.halt.Halt.TheVariants as halts;
ghost use Rattle.odb_engine.specs.Inputs.{IsFresh, ReadsFew, SomeDocument};
ghost use Rattle.odb_engine.specs.Cascade.{Answers};
ghost use Rattle.odb_engine.specs.Engines.{Ends};
ghost use Rattle.odb_engine.specs.Halts.{Found};
ghost use Rattle.odb_engine.specs.Commands as commands;

use crate::ending::{Ended, EngineFault};
use crate::halt::Halt;
use crate::tasks::task::{Task, answer_one};
use odb_doc::Batch;
use odb_io::{Input, Output};
use std::alloc::Global;
use std::io::{Read, Write};

/// Returns the canonical text, and a newline.
pub fn canonical_text(alloc: Global, batch: &Batch<'_>) -> Result<String, Halt>
    ensures found { (form : Form) → Found (commands.Canonical (records batch.now)) form result }
    ensures read { result ≢ Err halts.Read }
{
    let mut text = batch.canonical(alloc)?;
    text.push_str("\n")?;
    Ok(text)
}

/// Writes the canonical text of the batch in a document, and a newline; or the line of the first fault.
///
/// Two batches whose bodies have whole numbers alone mean the same if and only if their canonical
/// texts are equal. The arguments are those of
/// [`crate::check_batch`]. Takes O(n log n) time for a document of n bytes, and the text is held in
/// memory.
///
/// Example: `called_plainly` in crates/odb_tests_tasks/src/engines.rt.
///
/// # Errors
///
/// Those of [`crate::check_batch`].
pub fn canon_batch<R: Read, W: Write>(
    alloc: Global,
    input: &mut Input<R>,
    output: &mut Output<W>,
) -> Result<Ended, EngineFault>
    requires input { IsFresh input.old }
    requires output { output.old.failed ≡ false }
    ensures ends { SomeDocument (R.remaining input.old.reader) (λ bytes. Ends W.contents
        (Answers commands.Canonical bytes Lines) (IsTrue input.new.failed)
        output.old output.new result) }
    ensures memory { result ≡ Err EngineFault.OutOfMemory → output.new ≡ output.old }
    ensures reads { ReadsFew R.remaining input.old input.new }
{
    answer_one(alloc, input, output, Task::Canon)
}

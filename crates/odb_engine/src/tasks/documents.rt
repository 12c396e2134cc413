//! A command on its documents: one way from the readers, or from memory, to what is written of them, with its faults as they
//! are or with where they are.

ghost use Rattle.std.specs.Prelude.{◌≡◌, ◌⊎◌, ◌↔◌, true, false, Err, IfOk};
ghost use Rattle.odb_engine.specs.AllFaults.{Lists};
ghost use Rattle.odb_engine.specs.Contents.{AreFaultsOfContent, IsAskedFor, OfBatch, SomeContent};
ghost use Rattle.odb_engine.specs.Contents.Given.{InMemory};
ghost use Rattle.odb_engine.specs.Engines.{Ends};
ghost use Rattle.odb_engine.specs.Located.{LocatesContents, LocatesDocuments, OfContents};
ghost use Rattle.odb_engine.specs.Tasks.{OfDocuments};
ghost use Rattle.odb_engine.specs.declared.form.Form.TheVariants.{Lines};
ghost use Rattle.odb_engine.specs.declared.halt.Halt.TheVariants as halts;

use crate::ending::{Ended, EngineFault, end};
use crate::halt::Halt;
use crate::setup::Setup;
use crate::tasks::answer::{Answer, of_memory};
use crate::tasks::command::{Command, text_of};
use crate::tasks::located::{Documents, Names, print_found};
use crate::tasks::source::{Document, Kept, Slice};
use crate::tasks::task::Task;
use odb_io::Output;
use std::alloc::{AllocError, Global};
use std::io::Write;

/// Returns whether the batch document is kept: if its faults are located, or its bytes are taken.
fn is_kept(located: bool, taken: bool) -> bool
    ensures located { located ≡ true → result ≡ true }
    ensures taken { taken ≡ true → result ≡ true }
{
    located || taken
}

/// Returns what a command writes of its documents, which have these names. They are kept if its faults are located.
fn answer_of<R: Document, S: Document, C: Command + Drop>(
    alloc: Global,
    first: &mut R,
    second: &mut S,
    names: Names<'_>,
    command: C,
    setup: Setup,
) -> Result<Answer, Halt>
    requires first { R.is_fresh first.old }
    requires second { S.is_fresh second.old }
    ensures found { SomeContent (R.given first.old) (λ content. SomeContent (S.given second.old) (λ other.
        IfOk result (λ answer. OfContents setup.faults.located (C.lists_all command) (C.second_place command)
        (C.writes command) names.entry.batch.now content names.entry.second.now other setup.form
        answer.ended answer.text.items))
        × IsAskedFor (R.was_read first.old first.new content) content second.old second.new) }
    ensures read { (result ≡ Err halts.Read) ↔ (R.has_failed first.new ⊎ S.has_failed second.new) }
    ensures first { R.reads_few first.old first.new }
    ensures second { S.reads_few second.old second.new }
{
    let (mut command, mut faults) = (command, Vec::new(alloc));
    let (all, two) = (command.lists_all(), command.second_place().is_some());
    let located = setup.faults.located;
    let mut first_kept = Kept::new(alloc, is_kept(located, command.takes_bytes()));
    let mut second_kept = Kept::new(alloc, located);
    let found = text_of(
        alloc,
        first,
        second,
        &mut command,
        setup,
        &mut first_kept,
        &mut second_kept,
        &mut faults,
    );
    let documents = Documents {
        names,
        batch: first.bytes(&first_kept),
        batch_error: first_kept.error,
        second: second.bytes(&second_kept),
        second_error: second_kept.error,
        number: None,
        is_pair: false,
    };
    print_found(alloc, documents, all, two, setup, found, &faults)
}

/// Does a task, or another command, on documents that have these names: writes its result, or the first fault, or all
/// faults of the batch document, as the command and the setup ask. The second document is read only if the command takes
/// one, and the check accepts the batch.
///
/// The documents must be new, and the output must not have failed. The text is held in memory and written whole; if faults
/// are located, so are the documents.
///
/// Example: `called_plainly` in crates/odb_tests_tasks/src/engines.rt.
///
/// # Errors
///
/// - `Read` if and only if a read of one of the documents failed; nothing was written.
/// - `Write` if and only if the output failed; it has received a prefix of the text.
/// - `OutOfMemory` if an allocation fails; nothing was written.
pub fn answer_documents<R: Document, S: Document, W: Write, C: Command + Drop>(
    alloc: Global,
    first: &mut R,
    second: &mut S,
    output: &mut Output<W>,
    names: Names<'_>,
    command: C,
    setup: Setup,
) -> Result<Ended, EngineFault>
    requires first { R.is_fresh first.old }
    requires second { S.is_fresh second.old }
    requires output { output.old.failed ≡ false }
    ensures plain { setup.faults.located ≡ false → SomeContent (R.given first.old) (λ content. Ends W.contents
        (Lists (C.lists_all command)
        (OfBatch (C.second_place command) (C.writes command) (S.given second.old) content)
        (AreFaultsOfContent content) setup.form)
        (R.has_failed first.new ⊎ S.has_failed second.new) output.old output.new result
        × IsAskedFor (R.was_read first.old first.new content) content second.old second.new) }
    ensures located { setup.faults.located ≡ true → SomeContent (R.given first.old) (λ content.
        SomeContent (S.given second.old) (λ other. Ends W.contents
        (LocatesContents (C.lists_all command) (C.second_place command) (C.writes command)
        names.entry.batch.now content names.entry.second.now other setup.form)
        (R.has_failed first.new ⊎ S.has_failed second.new) output.old output.new result)
        × IsAskedFor (R.was_read first.old first.new content) content second.old second.new) }
    ensures memory { result ≡ Err EngineFault.OutOfMemory → output.new ≡ output.old }
    ensures first { R.reads_few first.old first.new }
    ensures second { S.reads_few second.old second.new }
{
    let found = answer_of(alloc, first, second, names, command, setup);
    end(found, output)
}

/// Does a command on documents without a setup.
pub(crate) fn answer_by_default<R: Document, S: Document, W: Write, C: Command + Drop>(
    alloc: Global,
    first: &mut R,
    second: &mut S,
    output: &mut Output<W>,
    command: C,
) -> Result<Ended, EngineFault>
    requires first { R.is_fresh first.old }
    requires second { S.is_fresh second.old }
    requires output { output.old.failed ≡ false }
    ensures ends { SomeContent (R.given first.old) (λ content. Ends W.contents
        (Lists (C.lists_all command)
        (OfBatch (C.second_place command) (C.writes command) (S.given second.old) content)
        (AreFaultsOfContent content) Lines)
        (R.has_failed first.new ⊎ S.has_failed second.new) output.old output.new result
        × IsAskedFor (R.was_read first.old first.new content) content second.old second.new) }
    ensures memory { result ≡ Err EngineFault.OutOfMemory → output.new ≡ output.old }
    ensures first { R.reads_few first.old first.new }
    ensures second { S.reads_few second.old second.new }
{
    answer_documents(
        alloc,
        first,
        second,
        output,
        Names::NONE,
        command,
        Setup::plain(),
    )
}

/// Does a task on a batch document in memory, and on a second document if the task takes one: returns what
/// is written, by the setup. The documents are not copied.
///
/// The documents have these names: faults are printed with them if the setup asks for where they are.
///
/// Example: `answered` in crates/odb_tests_tasks/src/laws/engines.rt.
///
/// # Errors
///
/// `AllocError` if an allocation fails.
pub fn answer_in_memory(
    alloc: Global,
    batch: &[u8],
    second: &[u8],
    names: Names<'_>,
    task: Task,
    setup: Setup,
) -> Result<Answer, AllocError>
    ensures plain { setup.faults.located ≡ false → IfOk result (λ answer.
        OfDocuments task (InMemory second.now) batch.now setup.form answer.ended answer.text.items) }
    ensures located { setup.faults.located ≡ true → IfOk result (λ answer. LocatesDocuments task
        names.entry.batch.now batch.now names.entry.second.now second.now setup.form
        answer.ended answer.text.items) }
{
    let (mut first, mut other) = (Slice { bytes: batch }, Slice { bytes: second });
    of_memory(answer_of(alloc, &mut first, &mut other, names, task, setup))
}

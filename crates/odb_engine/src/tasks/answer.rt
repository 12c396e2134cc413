//! What a command writes, in memory.

ghost use Rattle.std.specs.Prelude.{◌≡◌, ◌≤◌, ◌++◌, ◌↔◌, true, false, length, drop, map, Err, IfOk, IsTrue, Ok, string_bytes};
ghost use Rattle.odb_doc.specs.Refusals.{printed};
ghost use Rattle.odb_engine.specs.Answered.{listed_found};
ghost use Rattle.odb_engine.specs.declared.ending.Ended.TheVariants.{Done};
ghost use Rattle.odb_engine.specs.declared.halt.Halt.TheVariants as halts;
ghost use Rattle.odb_engine.specs.Halts.{text_found};
ghost use Rattle.odb_engine.specs.lines.Numbers.{OfLocated, OfNumbered};
ghost use Rattle.odb_engine.specs.Tasks.{OfWholeLine};

use crate::ending::{Ended, fault_text, refused_text};
use crate::form::Form;
use crate::halt::Halt;
use crate::lines::number::with_number;
use crate::lines::text_of_line;
use crate::setup::Setup;
use crate::tasks::command::Command;
use crate::tasks::located::{Documents, Names, print_found};
use crate::tasks::task::Task;
use odb_doc::Refusal;
use std::alloc::{AllocError, Global};

/// How a command ended, and the whole text that it wrote.
#[derive(Drop)]
pub struct Answer {
    /// How it ended.
    pub ended: Ended,
    /// What it wrote, in UTF-8.
    pub text: Vec<u8>,
}

impl Answer {
    /// Returns what is written of what was found: the text, or the fault in a form.
    ///
    /// # Errors
    ///
    /// `AllocError` if memory ran out, or if a read failed, which no read of memory does.
    pub fn of(alloc: Global, form: Form, found: Result<String, Halt>) -> Result<Self, AllocError>
        ensures { IfOk result (λ answer. text_found form found answer.ended answer.text.items) }
    {
        let (ended, text) = match found {
            Ok(text) => (Ended::Done, text),
            Err(halt) => (Ended::Refused, fault_text(alloc, form, halt.refusal()?)?),
        };
        Ok(Answer {
            ended,
            text: text.into_bytes(),
        })
    }

    /// Returns what is written of what was found: the text, the fault in a form, or all faults if they are listed.
    ///
    /// # Errors
    ///
    /// `Read` if and only if that was found; `OutOfMemory` if that was found, or an allocation fails.
    pub(crate) fn listed(
        alloc: Global,
        form: Form,
        all: bool,
        found: Result<String, Halt>,
        faults: &[Refusal],
    ) -> Result<Self, Halt>
        ensures listed { IfOk result (λ answer. listed_found all form (map printed faults.now) found
            answer.ended answer.text.items) }
        ensures read { (result ≡ Err halts.Read) ↔ (found ≡ Err halts.Read) }
    {
        let (ended, text) = match found {
            Ok(text) => (Ended::Done, text),
            Err(Halt::Refused(refusal)) => {
                (
                    Ended::Refused,
                    refused_text(alloc, form, all, refusal, faults)?,
                )
            }
            Err(halt) => return Err(halt),
        };
        Ok(Answer {
            ended,
            text: text.into_bytes(),
        })
    }

    /// Returns the answer of a command that writes this text as its result.
    pub(crate) fn done(text: String) -> Self
        ensures ended { result.ended ≡ Done }
        ensures text { result.text.items ≡ string_bytes text }
    {
        Answer {
            ended: Ended::Done,
            text: text.into_bytes(),
        }
    }

    /// Copies the text to the start of a buffer, if it fits, and returns whether it does. The rest of the
    /// buffer is as it was; all of it is, if the text is longer.
    pub fn copy_to(&self, buffer: &mut [u8]) -> bool
        ensures fits { IsTrue result ↔ (length self.now.text.items ≤ length buffer.old) }
        ensures copied { result ≡ true
            → buffer.new ≡ self.now.text.items ++ drop (length self.now.text.items) buffer.old }
        ensures same { result ≡ false → buffer.new ≡ buffer.old }
    {
        let length = self.text.len();
        if length > buffer.len() {
            return false;
        }
        buffer[..length].copy_from_slice(&self.text);
        true
    }
}

/// Returns the answer that was found of documents in memory, which no read of them fails.
pub(crate) fn of_memory(found: Result<Answer, Halt>) -> Result<Answer, AllocError>
    ensures { IfOk result (λ answer. found ≡ Ok answer) }
{
    match found {
        Ok(answer) => Ok(answer),
        Err(_) => Err(AllocError),
    }
}

/// Returns what a task writes of the line of this number in the log of this name, with where its faults are if they are
/// located.
fn answer_unnumbered(
    alloc: Global,
    name: &str,
    number: usize,
    line: &[u8],
    task: Task,
    setup: Setup,
) -> Result<Answer, AllocError>
    ensures { IfOk result (λ answer. OfLocated setup.faults.located name.now task number line.now setup.form
        answer.ended answer.text.items) }
{
    let (mut faults, mut error) = (Vec::new(alloc), None);
    let found = text_of_line(alloc, line, task, setup, &mut faults, &mut error);
    let documents = Documents {
        names: Names {
            batch: name,
            second: "",
        },
        batch: line,
        batch_error: error,
        second: b"",
        second_error: None,
        number: Some(number),
        is_pair: task.takes_second(),
    };
    let all = task.lists_all();
    of_memory(print_found(alloc, documents, all, false, setup, found, &faults))
}

/// Does a task on a line of a log: returns what is written of the document in it, or of the two
/// documents in it if the task takes two, by the setup. The line may be any bytes; they are not copied.
///
/// `name` is that of the log, and `number` that of the line: faults are printed with both if the setup asks for that.
///
/// Example: `line_answered` in crates/odb_tests_tasks/src/laws/engines.rt.
///
/// # Errors
///
/// `AllocError` if an allocation fails.
pub fn answer_line(
    alloc: Global,
    name: &str,
    number: usize,
    line: &[u8],
    task: Task,
    setup: Setup,
) -> Result<Answer, AllocError>
    ensures { IfOk result (λ answer. OfNumbered setup.faults.numbered setup.faults.located name.now task number
        line.now setup.form answer.ended answer.text.items) }
{
    let answer = answer_unnumbered(alloc, name, number, line, task, setup)?;
    match answer.ended {
        Ended::Refused if setup.faults.numbered => {
            with_number(alloc, name, number, setup, &answer.text)
        }
        _ => Ok(answer),
    }
}

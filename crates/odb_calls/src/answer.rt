//! How the answer of a command reaches the buffer of the caller.

ghost use Rattle.std.specs.Prelude.{◌≡◌, IfOk, OnErr};
ghost use Rattle.odb_calls.specs.Options as options;
ghost use Rattle.odb_calls.specs.Returns.{Does, Fills, IsOutOfMemory, Returns, ReturnsBy, status_of};

use crate::options::{form_of, setup_of};
use crate::status::{OUT_OF_MEMORY, SMALL_BUFFER, WRONG_OPTION, of_end};
use odb_engine::{Answer, Form, Names, Task, answer_in_memory};
use std::alloc::{AllocError, Global};

/// Copies the text of an answer to the buffer if it fits, sets its length, and returns the status;
/// that of out of memory if there is no answer.
pub fn give(answer: Result<Answer, AllocError>, buffer: &mut [u8], text_length: &mut usize) -> u32
    ensures ok { IfOk answer (λ answer. Fills answer.text.items (status_of answer.ended)
        result text_length.new buffer.old buffer.new) }
    ensures err { OnErr answer (IsOutOfMemory result text_length.new buffer.old buffer.new) }
{
    *text_length = 0;
    match answer {
        Ok(answer) => {
            *text_length = answer.text.len();
            if answer.copy_to(buffer) {
                of_end(answer.ended)
            } else {
                SMALL_BUFFER
            }
        }
        Err(_) => OUT_OF_MEMORY,
    }
}

/// Sets the length of a text that is not there, and returns the status of a wrong option.
pub fn wrong_option(text_length: &mut usize) -> u32
    ensures status { result ≡ 2 }
    ensures none { text_length.new ≡ 0 }
{
    *text_length = 0;
    WRONG_OPTION
}

/// Does a task on documents in memory and gives the caller what it writes, in a form.
pub fn answer(
    alloc: Global,
    batch: &[u8],
    second: &[u8],
    task: Task,
    form: Form,
    seed: u64,
    buffer: &mut [u8],
    text_length: &mut usize,
) -> u32
    ensures { Returns (Does task form batch.now second.now)
        result text_length.new buffer.old buffer.new }
{
    let setup = setup_of(form, seed);
    let answer = answer_in_memory(alloc, batch, second, Names::NONE, task, setup);
    give(answer, buffer, text_length)
}

/// Does the same in the form that a number names.
pub fn answer_as(
    alloc: Global,
    batch: &[u8],
    second: &[u8],
    task: Task,
    form: u32,
    seed: u64,
    buffer: &mut [u8],
    text_length: &mut usize,
) -> u32
    ensures { ReturnsBy (options.IsForm form)
        (λ form. Returns (Does task form batch.now second.now))
        result text_length.new buffer.old buffer.new }
{
    match form_of(form) {
        Some(form) => answer(alloc, batch, second, task, form, seed, buffer, text_length),
        None => wrong_option(text_length),
    }
}

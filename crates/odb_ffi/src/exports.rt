//! The calls of the commands for C.
//!
//! A slice is a pointer and then a length for C, and `alloc` is nothing. A form is 0 for lines, and 1 for one line of JSON, as
//! `--json` of the command writes.
//!
//! A call sets `text_length` to the length of the text, and returns
//! - 0 if the text is the result, and 1 if it is the line of a fault, or of each: then `text` begins with it;
//! - 5 if the text is longer than `text`;
//! - 2, with the length 0, if an option is none of its numbers;
//! - 4, with the length 0, if an allocation fails.
//!
//! With any other status than 0 and 1 `text` is unchanged. Names are looked up by hashes that start from
//! `seed`; 0 is no seed, and look-ups take O(log n) comparisons. The documents are not copied.

ghost use Rattle.std.specs.Prelude.{◌≡◌, [], true, false};
ghost use Rattle.odb_engine.specs.declared.tasks.task.Task.TheVariants as tasks;
ghost use Rattle.odb_calls.specs.Options as options;
ghost use Rattle.odb_calls.specs.Returns.{Does, Returns, ReturnsBy};

use odb_calls::answer::{answer_as, wrong_option};
use odb_calls::options::{match_of, mode_of, replay_of, run_of};
use odb_engine::Task::{Canon, Check, Plan, Rest};
use std::alloc::Global;

/// The version of the library, MAJOR.MINOR.PATCH, as MAJOR * 10000 + MINOR * 100 + PATCH.
#[unsafe(no_mangle)]
pub extern "C" fn odb_version() -> u32
    ensures { result ≡ 200 }
{
    200
}

/// Checks the batch in a document, as `odb_batch check` does.
#[unsafe(no_mangle)]
pub extern "C" fn odb_check_as(
    alloc: Global,
    batch: &[u8],
    form: u32,
    text: &mut [u8],
    text_length: &mut usize,
    seed: u64,
) -> u32
    ensures { ReturnsBy (options.IsForm form)
        (λ form. Returns (Does (tasks.Check false) form batch.now []))
        result text_length.new text.old text.new }
{
    let check = Check { all: false };
    answer_as(alloc, batch, b"", check, form, seed, text, text_length)
}

/// Does what [`odb_check_as`] does, and of a batch that is refused writes all its faults, as `odb_batch check --all` does.
#[unsafe(no_mangle)]
pub extern "C" fn odb_check_all_as(
    alloc: Global,
    batch: &[u8],
    form: u32,
    text: &mut [u8],
    text_length: &mut usize,
    seed: u64,
) -> u32
    ensures { ReturnsBy (options.IsForm form)
        (λ form. Returns (Does (tasks.Check true) form batch.now []))
        result text_length.new text.old text.new }
{
    let check = Check { all: true };
    answer_as(alloc, batch, b"", check, form, seed, text, text_length)
}

/// Plans the batch in a document, as `odb_batch plan` does.
#[unsafe(no_mangle)]
pub extern "C" fn odb_plan_as(
    alloc: Global,
    batch: &[u8],
    form: u32,
    text: &mut [u8],
    text_length: &mut usize,
    seed: u64,
) -> u32
    ensures { ReturnsBy (options.IsForm form)
        (λ form. Returns (Does (tasks.Plan false) form batch.now []))
        result text_length.new text.old text.new }
{
    let plan = Plan { full: false };
    answer_as(alloc, batch, b"", plan, form, seed, text, text_length)
}

/// Makes the canonical text of the batch in a document, as `odb_batch canon` does. It is the same in each form.
#[unsafe(no_mangle)]
pub extern "C" fn odb_canon_as(
    alloc: Global,
    batch: &[u8],
    form: u32,
    text: &mut [u8],
    text_length: &mut usize,
    seed: u64,
) -> u32
    ensures { ReturnsBy (options.IsForm form)
        (λ form. Returns (Does tasks.Canon form batch.now []))
        result text_length.new text.old text.new }
{
    answer_as(alloc, batch, b"", Canon, form, seed, text, text_length)
}

/// Matches the response document of a service against the batch in a document, as `odb_batch match` does.
///
/// `mode` is 0 for a service that continues after an error, and 1 for one that stops at its first error, as `odb_batch match
/// --stop` does. With `strict` 1, as `odb_batch match --strict` does, some finished run has to answer the statuses; with 2, as
/// `--strict --units` does, some run that may also send a group as one; with 0 none.
#[unsafe(no_mangle)]
pub extern "C" fn odb_match_with(
    alloc: Global,
    batch: &[u8],
    responses: &[u8],
    mode: u32,
    strict: u32,
    form: u32,
    text: &mut [u8],
    text_length: &mut usize,
    seed: u64,
) -> u32
    ensures { ReturnsBy (options.IsMatch mode strict)
        (λ task. ReturnsBy (options.IsForm form)
        (λ form. Returns (Does task form batch.now responses.now)))
        result text_length.new text.old text.new }
{
    match match_of(mode, strict) {
        Some(task) => answer_as(alloc, batch, responses, task, form, seed, text, text_length),
        None => wrong_option(text_length),
    }
}

/// Writes the rest of the batch in a document by the response document of a service, as `odb_batch rest` does: what may
/// be sent again, as a batch of its own (OData JSON Format 4.01, sections 19.1 and 19.4). It is the same in each form.
///
/// `mode` is that of [`odb_match_with`]. Responses that do not fit the batch are refused as there; else the fault is
/// F90 or F91.
#[unsafe(no_mangle)]
pub extern "C" fn odb_rest(
    alloc: Global,
    batch: &[u8],
    responses: &[u8],
    mode: u32,
    form: u32,
    text: &mut [u8],
    text_length: &mut usize,
    seed: u64,
) -> u32
    ensures { ReturnsBy (options.IsMode mode)
        (λ mode. ReturnsBy (options.IsForm form)
        (λ form. Returns (Does (tasks.Rest mode) form batch.now responses.now)))
        result text_length.new text.old text.new }
{
    match mode_of(mode) {
        Some(mode) => answer_as(
            alloc,
            batch,
            responses,
            Rest { mode },
            form,
            seed,
            text,
            text_length,
        ),
        None => wrong_option(text_length),
    }
}

/// Runs the batch in a document by the recorded events in another, as `odb_batch run` does. The response is the same
/// in each form.
///
/// `mode` is 0 to continue after an error and 1 to stop, and `width` is from 1 to 10,000.
#[unsafe(no_mangle)]
pub extern "C" fn odb_run_as(
    alloc: Global,
    batch: &[u8],
    events: &[u8],
    mode: u32,
    width: u32,
    form: u32,
    text: &mut [u8],
    text_length: &mut usize,
    seed: u64,
) -> u32
    ensures { ReturnsBy (options.IsRun mode width)
        (λ task. ReturnsBy (options.IsForm form)
        (λ form. Returns (Does task form batch.now events.now)))
        result text_length.new text.old text.new }
{
    match run_of(mode, width) {
        Some(task) => answer_as(alloc, batch, events, task, form, seed, text, text_length),
        None => wrong_option(text_length),
    }
}

/// Replays the batch in a document by the recorded outcomes in another, as `odb_batch replay` does. The response
/// and the trace are the same in each form.
///
/// `mode` and `width` are those of [`odb_run_as`]. `order` is 0 for `first`, 1 for `last` and 2 for `wide`, and
/// `trace` is 1 to write the trace before the response, else 0.
#[unsafe(no_mangle)]
pub extern "C" fn odb_replay_as(
    alloc: Global,
    batch: &[u8],
    outcomes: &[u8],
    mode: u32,
    width: u32,
    order: u32,
    trace: u32,
    form: u32,
    text: &mut [u8],
    text_length: &mut usize,
    seed: u64,
) -> u32
    ensures { ReturnsBy (options.IsReplay mode width order trace)
        (λ task. ReturnsBy (options.IsForm form)
        (λ form. Returns (Does task form batch.now outcomes.now)))
        result text_length.new text.old text.new }
{
    match replay_of(mode, width, order, trace) {
        Some(task) => answer_as(alloc, batch, outcomes, task, form, seed, text, text_length),
        None => wrong_option(text_length),
    }
}

//! The calls for C on a live run, by its handle.
//!
//! A handle by reference is the address of a `void *` for C, and by value it is the pointer.

ghost use Rattle.std.specs.Prelude.{◌≡◌, ◌≢◌, ◌<◌, ◌≤◌, ◌↔◌, ℕ, false, true, IfOk, IfErr};
ghost use Rattle.odb_dense.specs.Lists.{ListsOnce};
ghost use Rattle.odb_engine.specs.Cascade.{Prints};
ghost use Rattle.odb_engine.specs.Halts.{Halted};
ghost use Rattle.odb_live.specs.Labels.{id_lines};
ghost use Rattle.odb_engine.specs.declared.form.Form.TheVariants.{Lines};
ghost use Rattle.odb_live.specs.Live.{IsLeastOfOpening, Opens};
ghost use Rattle.odb_sched.specs.run.State as state;
ghost use Rattle.odb_sched.specs.run.Steps as steps;
ghost use Rattle.odb_calls.specs.Live as calls;
ghost use Rattle.odb_calls.specs.Next.{GivesNext};
ghost use Rattle.odb_calls.specs.Options as options;
ghost use Rattle.odb_calls.specs.Positions.{GivesPositions};
ghost use Rattle.odb_calls.specs.Returns.{Returns, ReturnsBy};

use crate::handle::Handle;
use crate::slot::Slot;
use odb_calls::answer::{give, wrong_option};
use odb_calls::options::{policy_of, seed_of};
use odb_calls::positions::give_positions;
use odb_calls::{live, next, status};
use odb_engine::{Answer, Form, Halt};
use odb_live::open_run;
use odb_sched::Policy;
use std::alloc::Global;

/// Opens a live run and returns its handle.
fn opened(
    alloc: Global,
    batch: &[u8],
    events: &[u8],
    policy: Policy,
    seed: u64,
) -> Result<Handle, Halt>
    ensures opened { IfOk result (λ handle. Opens policy batch.now events.now handle.value) }
    ensures least { IfErr result (Halted (IsLeastOfOpening policy batch.now events.now)) }
{
    let live = match open_run(alloc, batch, events, policy, seed_of(seed)) {
        Ok(live) => live,
        Err(halt) => return Err(halt),
    };
    match Box::new(alloc, live) {
        Ok(owned) => Ok(Handle::of(owned)),
        Err(_) => Err(Halt::OutOfMemory),
    }
}

/// Opens the run of the batch in a document after the recorded events in another, which may be none:
/// `{"events":[]}`.
///
/// Returns 0, and `run` holds the handle of the run, until it is closed by [`odb_run_close`]; what it
/// held before is forgotten. Otherwise `run` is as it was: returns 1 if a document is refused, if an
/// event names no request, or if one may not come, and `text` begins with the line of the fault; 5 if
/// the line is longer than `text`, and `text_length` is its length; 2 if `mode` or `width` is none of
/// those of [`crate::exports::odb_run_as`]; and 4 if an allocation fails.
#[unsafe(no_mangle)]
pub extern "C" fn odb_run_open(
    alloc: Global,
    batch: &[u8],
    events: &[u8],
    mode: u32,
    width: u32,
    run: &mut Slot,
    text: &mut [u8],
    text_length: &mut usize,
    seed: u64,
) -> u32
    ensures opened { ReturnsBy (options.IsPolicy mode width)
        (λ policy. calls.Opening policy batch.now events.now run.new.value)
        result text_length.new text.old text.new }
    ensures unopened { result ≢ 0 → run.new.value ≡ run.old.value }
{
    let Some(policy) = policy_of(mode, width) else {
        return wrong_option(text_length);
    };
    match opened(alloc, batch, events, policy, seed) {
        Ok(handle) => {
            *run = Slot::of(handle);
            *text_length = 0;
            status::DONE
        }
        Err(halt) => give(Answer::of(alloc, Form::Lines, Err(halt)), text, text_length),
    }
}

/// Copies the positions of the requests that may start now to a buffer, each once, in no particular
/// order.
///
/// Sets `count` to the number of them. Returns 0, and `positions` begins with them; or 5 if there are
/// more than `positions` has room for, and `positions` is as it was. Takes O(positions).
#[unsafe(no_mangle)]
pub extern "C" fn odb_run_ready(run: &mut Handle, positions: &mut [u32], count: &mut usize) -> u32
    ensures positions { GivesPositions (ListsOnce (state.size run.old.value.run)
        (steps.may_start run.old.value.run)) result count.new positions.old positions.new }
    ensures same { run.new.value ≡ run.old.value }
{
    give_positions(run.live().run().ready(), positions, count)
}

/// Copies the positions of the requests that run now to a buffer, as [`odb_run_ready`] does. They are no more
/// than the width allows, where a unit that was sent as one counts as one.
#[unsafe(no_mangle)]
pub extern "C" fn odb_run_running(run: &mut Handle, positions: &mut [u32], count: &mut usize) -> u32
    ensures positions { GivesPositions (ListsOnce (state.size run.old.value.run)
        (λ i. state.is_running (state.phase_at run.old.value.run i)))
        result count.new positions.old positions.new }
    ensures width { count.new ≤ steps.places run.old.value.run }
    ensures same { run.new.value ≡ run.old.value }
{
    give_positions(run.live().run().running(), positions, count)
}

/// Copies the positions of the undone requests of a finished run to a buffer, from the last to the
/// first: those that reported a status from 200 to 299 but are answered 424, since another request of
/// their group did not succeed. What they did has to be undone.
///
/// Sets `count` to the number of them. Returns 0, and `positions` begins with them; or, with
/// `positions` as it was, 5 if there are more than `positions` has room for. If the run is not
/// finished, it returns 1, and if an allocation fails 4; then `count` is 0, and `positions` is as it
/// was. Takes O(requests).
#[unsafe(no_mangle)]
pub extern "C" fn odb_run_undone(
    alloc: Global,
    run: &mut Handle,
    positions: &mut [u32],
    count: &mut usize,
) -> u32
    ensures positions { calls.GivesUndone run.old.value.run result count.new positions.old
        positions.new }
    ensures same { run.new.value ≡ run.old.value }
{
    *count = 0;
    match run.live().undone(alloc) {
        Ok(found) => give_positions(&found, positions, count),
        Err(Halt::Refused(_)) => status::REFUSED,
        Err(_) => status::OUT_OF_MEMORY,
    }
}

/// Looks for the request with an id.
///
/// Returns 0, and sets `position` to the position of the request; or 2 if there is none, and `position` is
/// as it was. Takes O(m log n) for an id of m bytes among n requests.
#[unsafe(no_mangle)]
pub extern "C" fn odb_run_position(run: &mut Handle, id: &[u8], position: &mut u32) -> u32
    ensures position { calls.GivesPosition run.old.value id.now result position.old position.new }
    ensures same { run.new.value ≡ run.old.value }
{
    match run.live().position_of(id) {
        Some(found) => {
            *position = found;
            status::DONE
        }
        None => status::WRONG_OPTION,
    }
}

/// Starts the request at a position.
///
/// Returns 0; or, with the run as it was, from 11 to 15 for the first of the causes S1 to S5 that
/// applies, and 2 if there is no such position. Takes O(dependencies of the request).
#[unsafe(no_mangle)]
pub extern "C" fn odb_run_start(run: &mut Handle, position: u32) -> u32
    ensures { calls.Starts run.old.value run.new.value position result }
{
    live::start(run.live(), position)
}

/// Takes the outcome of the request at a position: a status, and headers and a body as JSON, each of
/// which may be empty, as `null`, for none. The response repeats the bytes of the body as they are,
/// whatever numbers it has. A report of a status alone, with both empty, allocates nothing.
///
/// Returns 0; or, with the run as it was, 21 for P1 or 22 for P2, the first that applies; 2 if there is
/// no such position; 1 if the headers are not an object of strings whose names differ in lower case, if
/// the body is not JSON, or if it nests more than 124 deep; and 4 if an allocation fails. All reports of a
/// run together take O(requests + dependencies), beside O(n) for n bytes of bodies and O(n log n) for n
/// bytes of headers.
#[unsafe(no_mangle)]
pub extern "C" fn odb_run_report(
    alloc: Global,
    run: &mut Handle,
    position: u32,
    status: u32,
    headers: &[u8],
    body: &[u8],
) -> u32
    ensures { calls.Reports run.old.value run.new.value position status headers.now body.now result }
{
    live::report(run.live(), alloc, position, status, headers, body)
}

/// Gives the step that a replay in the same order, that of [`crate::exports::odb_replay_as`], takes next: 1 in `step` for
/// the start of the request at `position`, 2 for its report, and 0 if the run is finished; then `position` is as it
/// was.
///
/// Returns 0; or 2 if `order` is none of those of a replay, and both are as they were. The run stays as it is: start or
/// report the request by [`odb_run_start`] or [`odb_run_report`]. Takes O(requests that may start or run), and no memory.
#[unsafe(no_mangle)]
pub extern "C" fn odb_run_next(
    run: &mut Handle,
    order: u32,
    step: &mut u32,
    position: &mut u32,
) -> u32
    ensures next { GivesNext run.old.value.run order result step.old step.new position.old
        position.new }
    ensures same { run.new.value ≡ run.old.value }
{
    next::next(run.live(), order, step, position)
}

/// Returns 1 if no event may come any more: no request may start, and none is running. Else it returns 0. Takes
/// constant time.
#[unsafe(no_mangle)]
pub extern "C" fn odb_run_finished(run: &mut Handle) -> u32
    ensures value { result ≡ options.flag_number (steps.is_finished run.old.value.run) }
    ensures idle { (result ≡ 1) ↔ ((i : ℕ) → i < state.size run.old.value.run
        → (steps.may_start run.old.value.run i ≡ false)
        × (state.is_running (state.phase_at run.old.value.run i) ≡ false)) }
    ensures same { run.new.value ≡ run.old.value }
{
    if run.live().run().is_finished() { 1 } else { 0 }
}

/// Writes the ids of the requests, one a line, in the order of their positions.
///
/// The arguments and the status are those of [`crate::exports::odb_check_as`]. Takes O(n) for ids of n bytes.
#[unsafe(no_mangle)]
pub extern "C" fn odb_run_ids(
    alloc: Global,
    run: &mut Handle,
    text: &mut [u8],
    text_length: &mut usize,
) -> u32
    ensures text { Returns (Prints (id_lines run.old.value.labels))
        result text_length.new text.old text.new }
    ensures same { run.new.value ≡ run.old.value }
{
    give(live::ids(run.live(), alloc), text, text_length)
}

/// Writes what [`crate::exports::odb_run_as`] writes after the same events, but with each reported body as it
/// is: the response and a newline, or the line of F66 if the run is not finished. The arguments and the
/// status are those of [`crate::exports::odb_check_as`]; of a run that is not finished it is never 4.
///
/// Nothing is read again: takes O(n) for a text of n bytes.
#[unsafe(no_mangle)]
pub extern "C" fn odb_run_response(
    alloc: Global,
    run: &mut Handle,
    text: &mut [u8],
    text_length: &mut usize,
) -> u32
    ensures text { Returns (calls.Responds run.old.value Lines) result text_length.new text.old text.new }
    ensures memory { result ≡ 4 → steps.is_finished run.old.value.run ≡ true }
    ensures same { run.new.value ≡ run.old.value }
{
    live::give_response(run.live(), alloc, text, text_length)
}

/// Frees a run. Its handle is not to be used any more.
#[unsafe(no_mangle)]
pub extern "C" fn odb_run_close(run: Handle) {
    let _live = run.into_box();
}

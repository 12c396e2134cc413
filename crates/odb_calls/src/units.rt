//! What the calls on the units of a live run and on the state of a request do, as numbers.

ghost use Rattle.std.specs.Prelude.{◌≡◌, ◌<◌};
ghost use Rattle.odb_sched.specs.run.State.{size};
ghost use Rattle.odb_calls.specs.Units as calls;

use crate::positions::give_span;
use crate::status;
use odb_live::LiveRun;
use odb_sched::{OwnedRun, RequestState};

/// The number of a request of a finished run that has to be undone.
const UNDONE: u32 = 5;

/// Gives the positions of the first unit that may begin.
pub fn next_unit(live: &mut LiveRun, positions: &mut [u32], count: &mut usize) -> u32
    ensures unit { calls.GivesUnit live.old.run result count.new positions.old positions.new }
    ensures same { live.new ≡ live.old }
{
    *count = 0;
    match live.next_unit() {
        Some(u) => {
            let members = live.run().members(u);
            give_span(members.start, members.end, positions, count)
        }
        None => status::DONE,
    }
}

/// Starts the unit of the request at a position as one.
pub fn start_unit(live: &mut LiveRun, position: u32) -> u32
    ensures { calls.StartsUnit live.old live.new position result }
{
    if position >= live.run().len() {
        return status::WRONG_OPTION;
    }
    let u = live.run().unit_of(position);
    match live.start_unit(u) {
        Ok(()) => status::DONE,
        Err(cause) => status::of_start(cause),
    }
}

/// Returns the number of a state, and the status that was reported, or 0.
fn numbers_of(state: RequestState) -> (u32, u32)
    ensures state { result.0 ≡ calls.state_number state }
    ensures status { result.1 ≡ calls.reported_status state }
{
    match state {
        RequestState::Waiting => (0, 0),
        RequestState::Ready => (1, 0),
        RequestState::Running => (2, 0),
        RequestState::Reported(status) => (3, u32::from(status)),
        RequestState::Skipped => (4, 0),
    }
}

/// Returns the number of a request's state, and its status.
fn moment(run: &OwnedRun, i: u32) -> (u32, u32)
    requires { i < size run.now }
    ensures state { result.0 ≡ calls.number_at run.now i }
    ensures status { result.1 ≡ calls.status_at run.now i }
{
    let (state, status) = numbers_of(run.state(i));
    if !run.is_finished() {
        return (state, status);
    }
    let answered = u32::from(run.answer(i).status());
    if run.is_undone(i) {
        (UNDONE, answered)
    } else {
        (state, answered)
    }
}

/// Gives the state of a request.
pub fn state(live: &LiveRun, position: u32, state: &mut u32, status: &mut u32) -> u32
    ensures { calls.GivesState live.now.run position result state.old state.new status.old
        status.new }
{
    if position >= live.run().len() {
        return status::WRONG_OPTION;
    }
    (*state, *status) = moment(live.run(), position);
    status::DONE
}

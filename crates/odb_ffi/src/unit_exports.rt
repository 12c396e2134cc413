//! The calls for C on the units of a live run, on the state of a request, and to stop a run.
//!
//! A handle is passed as in [`crate::run_exports`].

ghost use Rattle.std.specs.Prelude.{◌≡◌};
ghost use Rattle.odb_live.specs.Live.{with_run};
ghost use Rattle.odb_sched.specs.run.State.{stopped};
ghost use Rattle.odb_calls.specs.Units as calls;

use crate::handle::Handle;
use odb_calls::units;

/// Copies the positions of the first unit that may begin to a buffer: of a group's members, or of one request
/// without a group, in order. A unit may begin if none of its members has started, it has not failed,
/// what its members need of other units has succeeded, the run is not stopped, and fewer requests are
/// running than the width allows.
///
/// Sets `count` to the number of them, which is 0 if no unit may begin now. Returns 0, and `positions`
/// begins with them; or 5 if there are more than `positions` has room for, and `positions` is as it was.
/// All calls of a run together take O(requests + dependencies), beside O(positions) for each.
#[unsafe(no_mangle)]
pub extern "C" fn odb_run_next_unit(
    run: &mut Handle,
    positions: &mut [u32],
    count: &mut usize,
) -> u32
    ensures unit { calls.GivesUnit run.old.value.run result count.new positions.old positions.new }
    ensures same { run.new.value ≡ run.old.value }
{
    units::next_unit(run.live(), positions, count)
}

/// Starts all members of the unit of the request at a position together, for a caller that sends a group to a
/// service as a batch of its own: of the request's group, or the request alone if it has none. They are
/// reported one by one, in any order, and until the last of them the unit counts as one in the width.
///
/// Returns 0; or, with the run as it was, 2 if there is no such position, and else from 11 to 15 for the
/// first of the causes S1 to S5 that applies to the unit: a member has started before, the run is stopped,
/// the unit has failed, a dependency of a member on another unit is not satisfied, or the width limit is
/// reached. Takes O(members and their dependencies).
#[unsafe(no_mangle)]
pub extern "C" fn odb_run_start_unit(run: &mut Handle, position: u32) -> u32
    ensures { calls.StartsUnit run.old.value run.new.value position result }
{
    units::start_unit(run.live(), position)
}

/// Stops a run: from now on no request starts (S2). What is running is reported as before, and what has
/// not started is answered 424.
#[unsafe(no_mangle)]
pub extern "C" fn odb_run_stop(run: &mut Handle)
    ensures { run.new.value ≡ with_run run.old.value (stopped run.old.value.run) }
{
    run.live().stop();
}

/// Gives the state of the request at a position.
///
/// Returns 0, and sets `state` and `status`; or 2 if there is no such position, and both are as they were.
/// `state` is 0 for a request that waits, 1 for one that may start now, 2 for one that runs, 3 for one that
/// has reported, and 4 for one that never starts any more, since its unit has failed or the run is stopped;
/// and, once the run is finished, 5 for one that has to be undone. `status` is what the request has
/// reported, or 0; and, once the run is finished, what it is answered. Takes constant time.
#[unsafe(no_mangle)]
pub extern "C" fn odb_run_state(
    run: &mut Handle,
    position: u32,
    state: &mut u32,
    status: &mut u32,
) -> u32
    ensures state { calls.GivesState run.old.value.run position result state.old state.new status.old
        status.new }
    ensures same { run.new.value ≡ run.old.value }
{
    units::state(run.live(), position, state, status)
}

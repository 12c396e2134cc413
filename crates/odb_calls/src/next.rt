//! Which step a live run takes next, as numbers.

ghost use Rattle.std.specs.Prelude.{◌≡◌, ◌<◌, ◌+◌, true, None, length, IfSome};
ghost use Rattle.odb_exec.specs.Choices.{IsAmong};
ghost use Rattle.odb_sched.specs.run.Choosing.{AllowsOrder, IsNext, position_in, positions_of};
ghost use Rattle.odb_sched.specs.run.Steps.{is_finished};
ghost use Rattle.odb_calls.specs.Next.{GivesNext, step_number};

use crate::options::order_of;
use crate::status;
use odb_exec::{Choice, Chooser};
use odb_live::LiveRun;
use odb_sched::{Order, OwnedRun, Step};

/// The number for no step.
const NO_STEP: u32 = 0;

/// Returns the step that an order picks among the ready and the running positions.
fn pick(order: Order, ready: &[u32], running: &[u32]) -> Step
    requires { 0 < length ready.now + length running.now }
    ensures among { IsAmong ready.now running.now result }
    ensures allowed { AllowsOrder order (positions_of ready.now) (positions_of running.now) result }
{
    let mut chooser = order;
    match chooser.choose(ready, running) {
        Choice::Start(place) => Step::Start(ready[place]),
        Choice::Report(place) => Step::Report(running[place]),
    }
}

/// Returns the next step of a run in an order, or `None` if the run is finished.
fn next_in(run: &OwnedRun, order: Order) -> Option<Step>
    ensures finished { result ≡ None → is_finished run.now ≡ true }
    ensures next { IfSome result (IsNext (AllowsOrder order) run.now) }
{
    if run.is_finished() {
        return None;
    }
    Some(pick(order, run.ready(), run.running()))
}

/// Returns the number of a step, and its position.
fn numbers_of(step: Step) -> (u32, u32)
    ensures step { result.0 ≡ step_number step }
    ensures position { result.1 ≡ position_in step }
{
    match step {
        Step::Start(i) => (1, i),
        Step::Report(i) => (2, i),
    }
}

/// Gives the next step of a run in an order.
pub fn next(live: &LiveRun, order: u32, step: &mut u32, position: &mut u32) -> u32
    ensures { GivesNext live.now.run order result step.old step.new position.old position.new }
{
    let Some(named) = order_of(order) else {
        return status::WRONG_OPTION;
    };
    match next_in(live.run(), named) {
        Some(next) => (*step, *position) = numbers_of(next),
        None => *step = NO_STEP,
    }
    status::DONE
}

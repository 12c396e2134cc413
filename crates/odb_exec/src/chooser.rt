//! Choosers, which decide what step of a run comes next.

ghost use Rattle.std.specs.Prelude.{slice_index_or, ◌<◌, length};
ghost use Rattle.odb_sched.specs.run.Choosing.{positions_of, IsLeast, IsGreatest};

use odb_sched::Order;

/// Which step of a run comes next: a place, counted from 0, in one of the two slices.
#[derive(Clone, Copy, Debug, PartialEq, Eq)]
pub enum Choice {
    /// Start the request at this place of the ready ones.
    Start(usize),
    /// Report the request at this place of the running ones.
    Report(usize),
}

/// Decides in which order a plan is executed, as far as the dependencies leave it open.
///
/// Each chooser defines which steps it allows, given the sets of ready and running positions: the
/// order of the two slices carries no meaning. It defines by `names` the order that it follows, if
/// any, and by `chooses` what a call of [`Chooser::choose`] does to it. Before each step an execution
/// asks for the order, and if the chooser names none it calls `choose` once. A chooser that promises
/// nothing of its calls writes `λ _ _ _ _ _. Unit {0}`.
pub trait Chooser {
    ghost use Rattle.std.specs.Prelude.{◌≡◌, ◌<◌, ◌+◌, length, Option, IfSome};
    ghost use Rattle.odb_sched.specs.declared.order.Order.{Order};
    ghost use Rattle.odb_sched.specs.declared.event.Step.{Step};
    ghost use Rattle.odb_sched.specs.run.Choosing.{Positions, positions_of, AllowsOrder};
    ghost use Rattle.odb_exec.specs.Choices.{IsInRange, picked};

    /// Which steps it allows for the ready and the running positions.
    ghost allows: { Self → Positions → Positions → Step → Type 0 };

    /// What one call of [`Chooser::choose`] does: the chooser before it, the ready and the running
    /// positions, the step that it picks, and the chooser after it.
    ghost chooses: { Self → Positions → Positions → Step → Self → Type 0 };

    /// The order that it names now, if any.
    ghost names: { Self → Option Order };

    /// Returns the next step, given the ready and the running positions. An execution does not call
    /// it if [`Chooser::order`] names an order.
    fn choose(&mut self, ready: &[u32], running: &[u32]) -> Choice
        requires { 0 < length ready.now + length running.now }
        ensures in_range { IsInRange ready.now running.now result }
        ensures allowed { allows self.old (positions_of ready.now) (positions_of running.now)
            (picked ready.now running.now result) }
        ensures chosen { chooses self.old (positions_of ready.now) (positions_of running.now)
            (picked ready.now running.now result) self.new }
        ensures narrows { (ready running : Positions) (step : Step)
            → allows self.new ready running step → allows self.old ready running step };

    /// Returns the built-in order that this chooser follows, if any. An execution then picks the
    /// steps by that order itself, which takes less time, and never calls [`Chooser::choose`].
    fn order(&self) -> Option<Order>
        ensures named { result ≡ names self.now }
        ensures followed { IfSome result (λ order. (ready running : Positions) (step : Step)
            → AllowsOrder order ready running step → allows self.now ready running step) };
}

/// Returns the place of the least position.
fn least_place(positions: &[u32]) -> usize
    requires { 0 < length positions.now }
    ensures within { result < length positions.now }
    ensures least { IsLeast (positions_of positions.now) (slice_index_or positions.now result 0) }
{
    let mut least = 0;
    for (place, position) in positions.iter().enumerate() {
        if *position < positions[least] {
            least = place;
        }
    }
    least
}

/// Returns the place of the greatest position.
fn greatest_place(positions: &[u32]) -> usize
    requires { 0 < length positions.now }
    ensures within { result < length positions.now }
    ensures greatest { IsGreatest (positions_of positions.now)
        (slice_index_or positions.now result 0) }
{
    let mut greatest = 0;
    for (place, position) in positions.iter().enumerate() {
        if *position > positions[greatest] {
            greatest = place;
        }
    }
    greatest
}

impl Chooser for Order {
    ghost use Rattle.std.specs.Prelude.{◌≡◌, Some};
    ghost use Rattle.odb_sched.specs.run.Choosing.{AllowsOrder};

    ghost allows = { AllowsOrder };

    ghost chooses = { λ old _ _ _ new. new ≡ old };

    ghost names = { Some };

    fn choose(&mut self, ready: &[u32], running: &[u32]) -> Choice {
        match *self {
            Order::First if running.is_empty() => Choice::Start(least_place(ready)),
            Order::First => Choice::Report(least_place(running)),
            Order::Last if running.is_empty() => Choice::Start(greatest_place(ready)),
            Order::Last => Choice::Report(greatest_place(running)),
            Order::Wide if ready.is_empty() => Choice::Report(least_place(running)),
            Order::Wide => Choice::Start(least_place(ready)),
        }
    }

    fn order(&self) -> Option<Order> {
        Some(*self)
    }
}

//! The choosers of the tests.

ghost use Rattle.std.specs.Prelude.{◌<◌, ◌+◌, length};
ghost use Rattle.odb_exec.specs.Choices.{IsInRange};

use odb_exec::{Choice, Chooser};
use odb_sched::Order;

/// What picks the next step.
#[derive(Clone, Copy)]
pub enum Picks {
    /// An order that is named.
    Named(Order),
    /// An order that is asked for each step.
    Asked(Order),
    /// Starts as many as it can, from the greatest position down, and then reports in that order.
    WideLast,
    /// Takes the numbers of one of `LISTS` from this place on, and 0 after its end: each a place
    /// among the ready requests followed by the running requests.
    Listed(usize, usize),
}

/// The numbers that a chooser takes.
const LISTS: &[&[usize]] = &[&[], &[1, 1, 1, 1, 1, 1], &[2, 0, 3, 1, 7, 5]];

impl Chooser for Picks {
    ghost use Rattle.std.specs.Prelude.{Some, None};
    ghost use Rattle.odb_tests_exec.specs.declared.runs.picks.Picks.TheVariants as picks;

    ghost allows = { λ _ _ _ _. Unit {0} };

    ghost chooses = { λ _ _ _ _ _. Unit {0} };

    ghost names = { λ picked. elim picked [
      | picks.Named order ↦ Some order
      | picks.Asked order ↦ None
      | picks.WideLast ↦ None
      | picks.Listed list next ↦ None
    ] };

    fn choose(&mut self, ready: &[u32], running: &[u32]) -> Choice {
        match *self {
            Picks::Named(mut order) | Picks::Asked(mut order) => order.choose(ready, running),
            Picks::WideLast if ready.is_empty() => Order::Last.choose(ready, running),
            Picks::WideLast => Order::Last.choose(ready, &[]),
            Picks::Listed(list, next) => {
                *self = Picks::Listed(list, next.saturating_add(1));
                let numbers = LISTS.get(list).copied().unwrap_or(&[]);
                place(numbers.get(next).copied().unwrap_or(0), ready, running)
            }
        }
    }

    fn order(&self) -> Option<Order> {
        match *self {
            Picks::Named(order) => Some(order),
            _ => None,
        }
    }
}

/// The place of a number among the ready requests followed by the running requests.
fn place(number: usize, ready: &[u32], running: &[u32]) -> Choice
    requires { 0 < length ready.now + length running.now }
    ensures { IsInRange ready.now running.now result }
{
    let place = number % (ready.len() + running.len());
    if place < ready.len() {
        Choice::Start(place)
    } else {
        Choice::Report(place - ready.len())
    }
}

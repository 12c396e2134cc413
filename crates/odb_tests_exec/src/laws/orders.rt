//! Executions in one order, by one record: two of them take the same steps and answer the same.

ghost use Rattle.std.specs.Prelude.{◌≡◌, IfOk, IfSome};
ghost use Rattle.odb_doc.specs.recorded.OutcomeLists.{entries};
ghost use Rattle.odb_check.specs.Plans.{plan_records};
ghost use Rattle.odb_exec.specs.Recordings.{Faults, Finishes, recorded_for};
ghost use Rattle.odb_sched.specs.run.State.{initial};
ghost use Rattle.odb_sched.specs.declared.order.Order.TheVariants as orders;
ghost use Rattle.odb_testing.specs.Readings.{IsReading};

use odb_check::Plan;
use odb_doc::Outcomes;
use odb_exec::laws::every_order;
use odb_exec::{Choice, Chooser, ExecFault, Recorded, Trace, execute};
use odb_sched::{Order, Policy};
use odb_testing::Two;
use std::alloc::Global;

/// A chooser that follows [`Order::Last`] whatever its value: of a chooser that is lent as a `dyn`, a proof knows the
/// type.
#[derive(Clone, Copy, Debug)]
struct Backwards;

impl Chooser for Backwards {
    ghost use Rattle.std.specs.Prelude.{Some};
    ghost use Rattle.odb_sched.specs.run.Choosing.{AllowsOrder};

    ghost allows = { λ _. AllowsOrder orders.Last };

    ghost chooses = { λ old _ _ _ new. new ≡ old };

    ghost names = { λ _. Some orders.Last };

    fn choose(&mut self, ready: &[u32], running: &[u32]) -> Choice {
        let mut order = Order::Last;
        order.choose(ready, running)
    }

    fn order(&self) -> Option<Order> {
        Some(Order::Last)
    }
}

/// Executes a plan by recorded outcomes, unless memory runs out.
fn executed<'a: 'p, 'p>(
    alloc: Global,
    plan: &'p Plan<'a>,
    policy: Policy,
    outcomes: Outcomes,
) -> Option<Result<Trace<'p>, ExecFault>>
    ensures { IfSome result (IsReading
        (λ trace. Finishes orders.Last (recorded_for (plan_records plan.now) (entries outcomes))
        (initial plan.now policy) trace.steps.items trace.done)
        (λ cause. Faults orders.Last (recorded_for (plan_records plan.now) (entries outcomes))
        (initial plan.now policy) cause)) }
{
    let Ok(mut service) = Recorded::new(alloc, plan, outcomes) else {
        return None;
    };
    match execute(alloc, plan, policy, &mut Backwards, &mut service) {
        Ok(trace) => Some(Ok(trace)),
        Err(ExecFault::OutOfMemory) => None,
        Err(cause) => Some(Err(cause)),
    }
}

/// Executes a plan by two equal records. If both executions finish, they took the same steps.
fn executed_twice<'a: 'p, 'p>(
    alloc: Global,
    plan: &'p Plan<'a>,
    policy: Policy,
    one: Outcomes,
    other: Outcomes,
) -> Two<Result<Trace<'p>, ExecFault>>
    requires { entries one ≡ entries other }
    ensures { IfSome result.0 (λ a. IfSome result.1 (λ b. IfOk a (λ x. IfOk b (λ y.
        x.steps.items ≡ y.steps.items)))) }
{
    every_order();
    (
        executed(alloc, plan, policy, one),
        executed(alloc, plan, policy, other),
    )
}

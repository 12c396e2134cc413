//! Executions by a chooser and a service of a library: the steps, the calls, the answers, and the faults.
//! Those by recorded outcomes in the orders of the program are shown on the built program.

ghost use Rattle.std.specs.Prelude.{◌≡◌, IfOk};
ghost use Rattle.odb_exec.specs.Calls.{reported_by};

use super::ends::{End, are_answers, is_end};
use super::picks::Picks;
use super::{GROUP, PASSED_ON, THREE, outcome, policy};
use odb_check::Plan;
use odb_doc::{Outcome, Request};
use odb_exec::laws::every_call;
use odb_exec::{Chooser, ExecFault, Service, ServiceFault, Trace, execute};
use odb_sched::Mode::{Continue, Stop};
use odb_sched::{Mode, Order, Policy, Step};
use odb_testing::plans::{OnPlan, holds_of};
use odb_testing::rows::expect;
use std::alloc::Global;
use std::test::Fail;

/// A request, a group of two that depend on it, and a request that depends on the group.
const USUAL: &str = r#"{"requests":[{"id":"0","method":"get","url":"Customers"},
    {"id":"1","method":"patch","url":"Customers","atomicityGroup":"group1","dependsOn":["0"]},
    {"id":"2","method":"post","url":"Customers","atomicityGroup":"group1","dependsOn":["0"]},
    {"id":"3","method":"get","url":"Products","dependsOn":["group1"]}]}"#;

/// A group whose second request depends on another request, and what depends on the group and on
/// the other request.
const BOTH: &str = r#"{"requests":[{"id":"a","method":"get","url":"X"},
    {"id":"p","method":"delete","url":"X","atomicityGroup":"g"},
    {"id":"q","method":"delete","url":"X","atomicityGroup":"g","dependsOn":["a"]},
    {"id":"r","method":"get","url":"X","dependsOn":["g"]},
    {"id":"t","method":"get","url":"X","dependsOn":["a"]}]}"#;

/// Three requests without needs.
const APART: &str = r#"{"requests":[{"id":"a","method":"get","url":"X"},
    {"id":"b","method":"get","url":"X"},{"id":"c","method":"get","url":"X"}]}"#;

/// Notes the position of each request that it performs, and answers it with the status at its
/// position in a list. At 0 it has no outcome, at 1 it fails.
#[derive(Drop)]
struct Statuses<'a> {
    alloc: Global,
    statuses: &'a [u16],
    calls: Vec<u32>,
}

impl Service for Statuses<'_> {
    ghost use Rattle.std.specs.Prelude.{◌++◌, ◌∷◌, []};

    ghost offers = { λ _ _ _. Unit {0} };

    ghost performs = { λ old i _ answer new.
        IfOk answer (λ _. new.calls.items ≡ old.calls.items ++ i ∷ []) };

    fn perform(&mut self, i: u32, _request: &Request<'_>) -> Result<Outcome, ServiceFault> {
        if self.calls.push(i).is_err() {
            return Err(ServiceFault::OutOfMemory);
        }
        match self.statuses.get(i as usize) {
            None | Some(0) => Err(ServiceFault::NoOutcome),
            Some(1) => Err(ServiceFault::Failed),
            Some(status) => Ok(outcome(self.alloc, *status)),
        }
    }
}

/// The trace of an execution and the positions that the service was asked for, or the fault.
type Executed<'p> = Result<(Trace<'p>, Vec<u32>), ExecFault>;

/// Executes a plan, and returns its trace and the positions that the service was asked for: one call
/// for each report, in order, and no other.
fn executed<'a: 'p, 'p>(
    alloc: Global,
    plan: &'p Plan<'a>,
    policy: Policy,
    mut picks: Picks,
    statuses: &[u16],
) -> Executed<'p>
    ensures { IfOk result (λ found. found.1.items ≡ reported_by found.0.steps.items) }
{
    every_call::<Statuses<'_>, u32>();
    let mut service = Statuses {
        alloc,
        statuses,
        calls: Vec::new(alloc),
    };
    let trace = execute(alloc, plan, policy, &mut picks, &mut service)?;
    Ok((trace, service.calls))
}

/// Whether the steps are these, each a sign, `+` for a start and `-` for a report, and a digit.
fn are_steps(steps: &[Step], wanted: &[u8]) -> bool {
    let mut left = wanted;
    for step in steps {
        let (sign, i) = match step {
            Step::Start(i) => (b'+', *i),
            Step::Report(i) => (b'-', *i),
        };
        match left {
            [first, second, rest @ ..]
                if *first == sign && char::from(*second).to_digit(10) == Some(i) => {
                left = rest;
            }
            _ => return false,
        }
    }
    left.is_empty()
}

/// Whether a list has the positions of the reports, in order.
fn are_reports(steps: &[Step], calls: &[u32]) -> bool {
    let mut left = calls;
    for step in steps {
        if let Step::Report(i) = step {
            match left {
                [first, rest @ ..] if first == i => left = rest,
                _ => return false,
            }
        }
    }
    left.is_empty()
}

/// The steps of an execution and how it ends, or its fault.
type Wanted = Result<(&'static [u8], End), ExecFault>;

/// Whether an execution took these steps, asked the service once for each report, and ended so.
fn is_course(alloc: Global, trace: &Trace<'_>, calls: &[u32], (steps, end): (&[u8], End)) -> bool {
    are_steps(&trace.steps, steps)
        && are_reports(&trace.steps, calls)
        && is_end(alloc, &trace.done, end)
}

/// Whether this came of an execution.
fn is_wanted(alloc: Global, executed: &Executed<'_>, wanted: Wanted) -> bool {
    match (executed, wanted) {
        (Ok((trace, calls)), Ok(course)) => is_course(alloc, trace, calls, course),
        (Err(fault), Err(wanted)) => *fault == wanted,
        _ => false,
    }
}

/// A document, a chooser, the mode and the width of the run (0 where it is free), the status of each
/// request, and what comes of it.
#[derive(Clone, Copy)]
struct Row(&'static str, Picks, (Mode, u32), &'static [u16], Wanted);

impl OnPlan for Row {
    fn holds(&self, alloc: Global, plan: &Plan<'_>) -> bool {
        let Row(_document, picks, (mode, width), statuses, wanted) = *self;
        let policy = policy(mode, width);
        is_wanted(
            alloc,
            &executed(alloc, plan, policy, picks, statuses),
            wanted,
        )
    }
}

const FIRST: Picks = Picks::Named(Order::First);

const LAST: Picks = Picks::Named(Order::Last);

const WIDE: Picks = Picks::Named(Order::Wide);

const ROWS: &[Row] = &[
    Row(
        USUAL,
        Picks::WideLast,
        (Continue, 0),
        &[200, 204, 201, 200],
        Ok((b"+0-0+2+1-2-1+3-3", (&[200, 204, 201, 200], &[]))),
    ),
    Row(
        PASSED_ON,
        Picks::WideLast,
        (Continue, 0),
        &[500, 201, 200, 200],
        Ok((b"+1+0-1-0", (&[500, 424, 424, 424], &[(1, 201)]))),
    ),
    Row(
        BOTH,
        Picks::WideLast,
        (Continue, 0),
        &[200, 409, 201, 200, 204],
        Ok((b"+1+0-1-0+4-4", (&[200, 409, 424, 424, 204], &[]))),
    ),
    Row(
        BOTH,
        Picks::Asked(Order::First),
        (Continue, 0),
        &[200, 409, 201, 200, 204],
        Ok((b"+0-0+1-1+4-4", (&[200, 409, 424, 424, 204], &[]))),
    ),
    Row(
        APART,
        Picks::WideLast,
        (Continue, 2),
        &[200, 200, 200],
        Ok((b"+2+1-2+0-1-0", (&[200, 200, 200], &[]))),
    ),
    Row(
        THREE,
        Picks::WideLast,
        (Stop, 0),
        &[200, 503, 201],
        Ok((b"+1+0-1-0", (&[200, 503, 424], &[]))),
    ),
    Row(
        BOTH,
        Picks::Asked(Order::Last),
        (Continue, 0),
        &[200, 409, 201, 200, 204],
        Ok((b"+1-1+0-0+4-4", (&[200, 409, 424, 424, 204], &[]))),
    ),
    Row(
        BOTH,
        Picks::Asked(Order::Wide),
        (Continue, 0),
        &[200, 409, 201, 200, 204],
        Ok((
            b"+0+1-0+2+4-1-2-4",
            (&[200, 409, 424, 424, 204], &[(2, 201)]),
        )),
    ),
    // orders that are named
    Row(
        THREE,
        FIRST,
        (Continue, 0),
        &[200, 200, 200],
        Ok((b"+0-0+1-1+2-2", (&[200, 200, 200], &[]))),
    ),
    Row(
        THREE,
        LAST,
        (Continue, 0),
        &[200, 200, 200],
        Ok((b"+1-1+0-0+2-2", (&[200, 200, 200], &[]))),
    ),
    Row(
        THREE,
        WIDE,
        (Continue, 0),
        &[500, 200, 200],
        Ok((b"+0+1-0-1", (&[500, 200, 424], &[]))),
    ),
    Row(
        PASSED_ON,
        LAST,
        (Continue, 0),
        &[500, 200, 200, 200],
        Ok((b"+1-1+0-0", (&[500, 424, 424, 424], &[(1, 200)]))),
    ),
    Row(
        GROUP,
        FIRST,
        (Continue, 0),
        &[200, 500, 200],
        Ok((b"+0-0+1-1", (&[424, 500, 424], &[(0, 200)]))),
    ),
    // what the service answers
    Row(
        APART,
        FIRST,
        (Continue, 0),
        &[200],
        Err(ExecFault::NoOutcome(1)),
    ),
    Row(
        APART,
        FIRST,
        (Continue, 0),
        &[200, 1],
        Err(ExecFault::Service(1)),
    ),
    Row(
        APART,
        FIRST,
        (Continue, 0),
        &[600, 200],
        Err(ExecFault::BadStatus(0)),
    ),
    Row(
        APART,
        FIRST,
        (Continue, 0),
        &[199, 200],
        Err(ExecFault::BadStatus(0)),
    ),
    Row(
        APART,
        FIRST,
        (Continue, 0),
        &[599, 200, 200],
        Ok((b"+0-0+1-1+2-2", (&[599, 200, 200], &[]))),
    ),
];

#[test]
fn asks_a_chooser_and_a_service(rt: HostRuntime) -> Result<(), Fail> {
    for row in ROWS {
        expect(holds_of(rt.alloc(), row.0, row), row.0)?;
    }
    Ok(())
}

/// Whether an execution answers with these statuses.
fn is_answered(executed: &Executed<'_>, answers: &[u16]) -> bool {
    match executed {
        Ok((trace, _calls)) => are_answers(&trace.done, answers),
        Err(_) => false,
    }
}

/// The status of each request, and of the answer to it.
#[derive(Clone, Copy)]
struct Answers(&'static [u16], &'static [u16]);

impl Answers {
    /// Whether the requests are answered so if a chooser picks the steps.
    fn are_given(self, alloc: Global, plan: &Plan<'_>, picks: Picks) -> bool {
        let policy = Policy::free(Continue);
        is_answered(&executed(alloc, plan, policy, picks, self.0), self.1)
    }
}

const ORDERS: &[Picks] = &[
    FIRST,
    LAST,
    WIDE,
    Picks::Listed(0, 0),
    Picks::Listed(1, 0),
    Picks::Listed(2, 0),
];

impl OnPlan for Answers {
    fn holds(&self, alloc: Global, plan: &Plan<'_>) -> bool {
        for picks in ORDERS {
            if !self.are_given(alloc, plan, *picks) {
                return false;
            }
        }
        true
    }
}

const ANSWERS: &[(&str, Answers)] = &[
    (USUAL, Answers(&[200, 204, 201, 200], &[200, 204, 201, 200])),
    (USUAL, Answers(&[200, 204, 409, 200], &[200, 424, 409, 424])),
    (
        PASSED_ON,
        Answers(&[500, 201, 200, 200], &[500, 424, 424, 424]),
    ),
    (
        BOTH,
        Answers(&[200, 409, 201, 200, 204], &[200, 409, 424, 424, 204]),
    ),
];

#[test]
fn answers_the_same_in_each_order(rt: HostRuntime) -> Result<(), Fail> {
    for (document, answers) in ANSWERS {
        expect(holds_of(rt.alloc(), document, answers), document)?;
    }
    Ok(())
}

#[test]
fn names_the_order_of_each_chooser(rt: HostRuntime) {
    for order in [Order::First, Order::Last, Order::Wide] {
        assert!(rt; order.order() == Some(order));
    }
    assert!(rt; Picks::WideLast.order() == None);
}

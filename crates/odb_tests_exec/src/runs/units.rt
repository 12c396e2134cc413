//! Runs of whole units: which unit may begin, units that are sent as one, what has become of each request,
//! and runs that their caller stops.

use super::{PASSED_ON, outcome, policy};
use odb_check::Plan;
use odb_sched::Mode::{self, Continue, Stop};
use odb_sched::RequestState::{self, Ready, Reported, Running, Skipped, Waiting};
use odb_sched::{OwnedRun, Policy};
use odb_testing::plans::{OnPlan, holds_of};
use std::alloc::Global;

/// In place of a status: the start of the request, a stop of the run, and the start of its unit as one.
const START: u16 = 0;

const STOP: u16 = 1;

const SEND: u16 = 2;

/// An event, at a position with what it reports, and what is asked after it: the unit that may begin, and
/// the states of the requests.
type Row = (u32, u16, Option<u32>, &'static [RequestState]);

/// A run of a plan under a mode and a width.
struct Course {
    mode: Mode,
    width: u32,
    rows: &'static [Row],
}

/// One unit after another: a request, a group, and a stop before the last.
const ONE_AFTER_ANOTHER: &[Row] = &[
    (0, START, None, &[Running, Ready, Waiting, Waiting]),
    (0, 200, Some(1), &[Reported(200), Ready, Ready, Waiting]),
    (1, START, None, &[Reported(200), Running, Ready, Waiting]),
    (
        1,
        201,
        None,
        &[Reported(200), Reported(201), Ready, Waiting],
    ),
    (
        2,
        START,
        None,
        &[Reported(200), Reported(201), Running, Waiting],
    ),
    (
        2,
        204,
        Some(2),
        &[Reported(200), Reported(201), Reported(204), Ready],
    ),
    (
        3,
        STOP,
        None,
        &[Reported(200), Reported(201), Reported(204), Skipped],
    ),
];

/// A group that fails before the request that it needs has started, where one request runs at once.
const FAILED: &[Row] = &[
    (1, START, None, &[Waiting, Running, Waiting, Waiting]),
    (1, 500, Some(0), &[Ready, Reported(500), Skipped, Skipped]),
    (0, START, None, &[Running, Reported(500), Skipped, Skipped]),
    (0, STOP, None, &[Running, Reported(500), Skipped, Skipped]),
    (
        0,
        200,
        None,
        &[Reported(200), Reported(500), Skipped, Skipped],
    ),
];

/// A group that is sent as one where one request runs at once, and reports in another order.
const SENT: &[Row] = &[
    (0, SEND, None, &[Running, Waiting, Waiting, Waiting]),
    (0, 200, Some(1), &[Reported(200), Ready, Ready, Waiting]),
    (2, SEND, None, &[Reported(200), Running, Running, Waiting]),
    (
        2,
        204,
        None,
        &[Reported(200), Running, Reported(204), Waiting],
    ),
    (
        1,
        201,
        Some(2),
        &[Reported(200), Reported(201), Reported(204), Ready],
    ),
    (
        3,
        SEND,
        None,
        &[Reported(200), Reported(201), Reported(204), Running],
    ),
    (
        3,
        200,
        None,
        &[Reported(200), Reported(201), Reported(204), Reported(200)],
    ),
];

/// The same where more run at once, and the error of a member stops the run: the other is reported as before.
const SENT_AND_STOPPED: &[Row] = &[
    (0, SEND, None, &[Running, Ready, Waiting, Waiting]),
    (0, 200, Some(1), &[Reported(200), Ready, Ready, Waiting]),
    (1, SEND, None, &[Reported(200), Running, Running, Waiting]),
    (
        1,
        500,
        None,
        &[Reported(200), Reported(500), Running, Skipped],
    ),
    (
        2,
        204,
        None,
        &[Reported(200), Reported(500), Reported(204), Skipped],
    ),
];

/// The same where an error stops the run.
const STOPPED: &[Row] = &[
    (1, START, Some(0), &[Ready, Running, Waiting, Waiting]),
    (1, 500, None, &[Skipped, Reported(500), Skipped, Skipped]),
];

fn takes(alloc: Global, run: &mut OwnedRun, i: u32, status: u16) -> bool {
    if i >= run.len() {
        return false;
    }
    match status {
        START => run.start(i).is_ok(),
        SEND => {
            let u = run.unit_of(i);
            run.start_unit(u).is_ok()
        }
        STOP => {
            run.stop();
            run.is_closed()
        }
        _ => run.report(i, outcome(alloc, status)).is_ok(),
    }
}

fn are_states(run: &OwnedRun, states: &[RequestState]) -> bool {
    for i in 0..run.len() {
        if states.get(i as usize).copied() != Some(run.state(i)) {
            return false;
        }
    }
    states.len() == run.len() as usize
}

fn goes_on(alloc: Global, run: &mut OwnedRun, row: &Row) -> bool {
    takes(alloc, run, row.0, row.1) && run.next_unit() == row.2 && are_states(run, row.3)
}

/// Whether each unit begins and ends where the one before it ends.
fn are_adjacent(run: &OwnedRun) -> bool {
    let mut next = 0;
    for u in 0..run.unit_count() {
        let members = run.members(u);
        if members.start != next {
            return false;
        }
        next = members.end;
    }
    next == run.len()
}

/// What a test asks of a new run.
trait OnRun {
    /// Whether it holds. A call that runs out of memory does not hold.
    fn holds_on(&self, alloc: Global, run: &mut OwnedRun) -> bool;
}

/// Whether it holds of a new run of the plan.
fn holds_on_new<T: OnRun>(alloc: Global, plan: &Plan<'_>, policy: Policy, task: &T) -> bool {
    match OwnedRun::new(alloc, plan, policy) {
        Ok(mut run) => task.holds_on(alloc, &mut run),
        Err(_) => false,
    }
}

impl OnRun for Course {
    fn holds_on(&self, alloc: Global, run: &mut OwnedRun) -> bool {
        if run.next_unit() != Some(0) || !are_adjacent(run) {
            return false;
        }
        for row in self.rows {
            if !goes_on(alloc, run, row) {
                return false;
            }
        }
        run.is_finished()
    }
}

impl OnPlan for Course {
    fn holds(&self, alloc: Global, plan: &Plan<'_>) -> bool {
        holds_on_new(alloc, plan, policy(self.mode, self.width), self)
    }
}

const COURSES: &[Course] = &[
    Course {
        mode: Continue,
        width: 0,
        rows: ONE_AFTER_ANOTHER,
    },
    Course {
        mode: Continue,
        width: 1,
        rows: FAILED,
    },
    Course {
        mode: Stop,
        width: 0,
        rows: STOPPED,
    },
    Course {
        mode: Continue,
        width: 1,
        rows: SENT,
    },
    Course {
        mode: Stop,
        width: 0,
        rows: SENT_AND_STOPPED,
    },
];

#[test]
fn units_begin_and_requests_have_states(rt: HostRuntime) {
    for course in COURSES {
        assert!(rt; holds_of(rt.alloc(), PASSED_ON, course));
    }
}

fn takes_all(alloc: Global, run: &mut OwnedRun, events: &[(u32, u16)]) -> bool {
    for (i, status) in events {
        if !takes(alloc, run, *i, *status) {
            return false;
        }
    }
    true
}

/// Events of a run, and the unit that may begin after them, which is asked for only then.
struct AskedLate {
    events: &'static [(u32, u16)],
    unit: Option<u32>,
}

impl OnRun for AskedLate {
    fn holds_on(&self, alloc: Global, run: &mut OwnedRun) -> bool {
        takes_all(alloc, run, self.events) && run.next_unit() == self.unit
    }
}

impl OnPlan for AskedLate {
    fn holds(&self, alloc: Global, plan: &Plan<'_>) -> bool {
        holds_on_new(alloc, plan, policy(Continue, 0), self)
    }
}

const ASKED_LATE: &[AskedLate] = &[
    AskedLate {
        events: &[(1, START)],
        unit: Some(0),
    },
    AskedLate {
        events: &[(0, START), (0, 200)],
        unit: Some(1),
    },
    AskedLate {
        events: &[(0, START), (0, 200), (1, START), (1, 201)],
        unit: None,
    },
    AskedLate {
        events: &[
            (0, START),
            (0, 200),
            (1, START),
            (1, 201),
            (2, START),
            (2, 204),
        ],
        unit: Some(2),
    },
];

#[test]
fn a_unit_is_asked_for_late(rt: HostRuntime) {
    for asked in ASKED_LATE {
        assert!(rt; holds_of(rt.alloc(), PASSED_ON, asked));
    }
}

/// Events of a run of a width, a unit, and the cause why it may not be sent as one after them.
struct Refused {
    width: u32,
    events: &'static [(u32, u16)],
    unit: u32,
    code: &'static str,
}

impl OnRun for Refused {
    fn holds_on(&self, alloc: Global, run: &mut OwnedRun) -> bool {
        if !takes_all(alloc, run, self.events) || self.unit >= run.unit_count() {
            return false;
        }
        match run.start_unit(self.unit) {
            Ok(()) => false,
            Err(cause) => cause.code() == self.code,
        }
    }
}

impl OnPlan for Refused {
    fn holds(&self, alloc: Global, plan: &Plan<'_>) -> bool {
        holds_on_new(alloc, plan, policy(Continue, self.width), self)
    }
}

const REFUSED: &[Refused] = &[
    Refused {
        width: 0,
        events: &[],
        unit: 1,
        code: "S4",
    },
    Refused {
        width: 0,
        events: &[(1, START)],
        unit: 1,
        code: "S1",
    },
    Refused {
        width: 0,
        events: &[(0, STOP)],
        unit: 0,
        code: "S2",
    },
    Refused {
        width: 0,
        events: &[(1, START), (1, 500)],
        unit: 2,
        code: "S3",
    },
    Refused {
        width: 1,
        events: &[(1, START)],
        unit: 0,
        code: "S5",
    },
];

#[test]
fn units_are_refused_as_a_whole(rt: HostRuntime) {
    for refused in REFUSED {
        assert!(rt; holds_of(rt.alloc(), PASSED_ON, refused));
    }
}

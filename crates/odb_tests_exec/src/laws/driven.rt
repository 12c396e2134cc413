//! Live runs that are driven by tables of calls, some of them refused: each keeps what is promised of every
//! live run.

ghost use Rattle.std.specs.Prelude.{◌<◌, IfSome};
ghost use Rattle.odb_check.specs.Plans.{plan_records};
ghost use Rattle.odb_sched.specs.declared.policy.Policy as policies;
ghost use Rattle.odb_sched.specs.run.State.{size};
ghost use Rattle.odb_tests_exec.specs.LiveRuns.{IsKept, IsLiveState};

use crate::runs::{PASSED_ON, outcome, policy};
use odb_check::Plan;
use odb_check::laws::every_plan;
use odb_doc::Outcome;
use odb_sched::Mode::{self, Continue, Stop};
use odb_sched::laws::every_live_run;
use odb_sched::{OwnedRun, Policy};
use odb_testing::plans::{OnPlan, holds_of};
use std::alloc::Global;

/// In place of a status: the start of the request, a stop of the run, and the start of its unit as one.
const START: u16 = 0;

const STOP: u16 = 1;

const SEND: u16 = 2;

/// Calls with a position and what is reported or done there, and how many of them are taken.
struct Course {
    mode: Mode,
    width: u32,
    calls: &'static [(u32, u16)],
    taken: u32,
}

/// Starts a request, and returns whether its start might come.
fn starts(plan: &Plan<'_>, run: &mut OwnedRun, i: u32) -> bool
    requires { i < size run.old }
    ensures { (policy : policies.Policy) → IsLiveState (plan_records plan.now) policy run.old
        → IsLiveState (plan_records plan.now) policy run.new }
{
    every_live_run();
    run.start(i).is_ok()
}

/// Sends a unit as one, and returns whether it might begin.
fn sends(plan: &Plan<'_>, run: &mut OwnedRun, u: u32) -> bool
    requires { u < run.old.plan_graph.unit_count }
    ensures { (policy : policies.Policy) → IsLiveState (plan_records plan.now) policy run.old
        → IsLiveState (plan_records plan.now) policy run.new }
{
    every_live_run();
    run.start_unit(u).is_ok()
}

/// Reports an outcome, and returns whether its report might come.
fn reports(plan: &Plan<'_>, run: &mut OwnedRun, i: u32, outcome: Outcome) -> bool
    requires { i < size run.old }
    ensures { (policy : policies.Policy) → IsLiveState (plan_records plan.now) policy run.old
        → IsLiveState (plan_records plan.now) policy run.new }
{
    every_live_run();
    run.report(i, outcome).is_ok()
}

/// Stops a run.
fn stops(plan: &Plan<'_>, run: &mut OwnedRun) -> bool
    ensures { (policy : policies.Policy) → IsLiveState (plan_records plan.now) policy run.old
        → IsLiveState (plan_records plan.now) policy run.new }
{
    every_live_run();
    run.stop();
    true
}

/// Makes a call on a run, and returns whether it was taken. A run that it refuses is unchanged.
fn takes(alloc: Global, plan: &Plan<'_>, run: &mut OwnedRun, call: (u32, u16)) -> bool
    ensures { (policy : policies.Policy) → IsLiveState (plan_records plan.now) policy run.old
        → IsLiveState (plan_records plan.now) policy run.new }
{
    let (i, status) = call;
    if i >= run.len() {
        return false;
    }
    match status {
        START => starts(plan, run, i),
        SEND => {
            let u = run.unit_of(i);
            sends(plan, run, u)
        }
        STOP => stops(plan, run),
        _ => reports(plan, run, i, outcome(alloc, status)),
    }
}

/// Makes the calls on a run, and returns how many were taken.
fn takes_all(alloc: Global, plan: &Plan<'_>, run: &mut OwnedRun, calls: &[(u32, u16)]) -> u32
    ensures { (policy : policies.Policy) → IsLiveState (plan_records plan.now) policy run.old
        → IsLiveState (plan_records plan.now) policy run.new }
{
    let mut taken = 0u32;
    for call in calls {
        if takes(alloc, plan, run, *call) {
            taken = taken.saturating_add(1);
        }
    }
    taken
}

/// Drives a run of a plan by these calls, and returns how many were taken.
fn driven(
    alloc: Global,
    plan: &Plan<'_>,
    policy: Policy,
    calls: &[(u32, u16)],
) -> Option<(OwnedRun, u32)>
    ensures { IfSome result (λ both. IsKept (plan_records plan.now) policy both.0) }
{
    every_plan(plan);
    every_live_run();
    let Ok(mut run) = OwnedRun::new(alloc, plan, policy) else {
        return None;
    };
    let taken = takes_all(alloc, plan, &mut run, calls);
    Some((run, taken))
}

impl OnPlan for Course {
    fn holds(&self, alloc: Global, plan: &Plan<'_>) -> bool {
        match driven(alloc, plan, policy(self.mode, self.width), self.calls) {
            Some((run, taken)) => taken == self.taken && run.is_finished(),
            None => false,
        }
    }
}

/// A request that the group needs, the group as one, and what needs the group: each too early once; with a
/// request that is started twice, and one that is reported twice.
const SENT: &[(u32, u16)] = &[
    (1, SEND),
    (0, START),
    (0, START),
    (0, 200),
    (0, 200),
    (3, START),
    (2, SEND),
    (2, 204),
    (1, 201),
    (3, START),
    (3, 200),
];

/// A member of the group fails while the other runs: what needs the group does not start.
const FAILED: &[(u32, u16)] = &[
    (0, SEND),
    (0, 200),
    (1, SEND),
    (1, 500),
    (3, START),
    (2, 204),
];

/// A stop by the caller while a request runs.
const STOPPED: &[(u32, u16)] = &[(0, START), (0, STOP), (1, START), (0, 200), (1, SEND)];

const COURSES: &[Course] = &[
    Course {
        mode: Continue,
        width: 1,
        calls: SENT,
        taken: 7,
    },
    Course {
        mode: Continue,
        width: 0,
        calls: FAILED,
        taken: 5,
    },
    Course {
        mode: Stop,
        width: 0,
        calls: FAILED,
        taken: 5,
    },
    Course {
        mode: Continue,
        width: 2,
        calls: STOPPED,
        taken: 3,
    },
];

#[test]
fn a_live_run_keeps_what_is_promised(rt: HostRuntime) {
    for course in COURSES {
        assert!(rt; holds_of(rt.alloc(), PASSED_ON, course));
    }
}

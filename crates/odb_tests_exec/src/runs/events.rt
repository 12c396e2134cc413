//! Worked examples of events: what each is allowed, which requests are ready and which run after
//! them, what each request is answered in the end, and what the events are as a list.

ghost use Rattle.std.specs.Prelude.{◌≡◌, length};
ghost use Rattle.odb_check.specs.Plans.{plan_records};
ghost use Rattle.odb_sched.specs.run.State.{size};

use super::ends::{End, OnDone, ended, is_end};
use super::listed::{Allowed, Refused, listed};
use super::{GROUP, PASSED_ON, REFERENCE, THREE, code_of, policy};
use odb_check::Need::{Group, One};
use odb_check::{Need, Plan};
use odb_sched::Mode::{Continue, Stop};
use odb_sched::{Done, Mode, Policy, Scheduler};
use odb_testing::plans::{OnPlan, holds_of};
use odb_testing::rows::expect;
use std::alloc::Global;
use std::test::Fail;

/// Events, one after another, and what they lead to.
#[derive(Clone, Copy)]
struct Row {
    document: &'static str,
    /// The mode and the width, which is 0 for a free run.
    run: (Mode, u32),
    events: &'static [Allowed],
    /// The ready requests and the running ones after the events, in any order.
    views: [&'static [u32]; 2],
    /// How the run ends, if it is finished.
    end: Option<End>,
    /// What the first event that is refused waits for, if it is a start that waits.
    waits: Option<Need>,
}

/// Whether a list has these positions, in any order, and no other.
fn has_positions(found: &[u32], wanted: &[u32]) -> bool {
    for i in wanted {
        if !found.contains(i) {
            return false;
        }
    }
    found.len() == wanted.len()
}

/// Whether a scheduler shows these ready and running requests.
fn is_shown(scheduler: &Scheduler<'_>, [ready, running]: [&[u32]; 2]) -> bool {
    has_positions(scheduler.ready(), ready) && has_positions(scheduler.running(), running)
}

/// Whether a scheduler allows each event what is listed.
fn are_allowed(
    alloc: Global,
    plan: &Plan<'_>,
    scheduler: &mut Scheduler<'_>,
    events: &[Allowed],
) -> bool
    requires { size scheduler.old ≡ length (plan_records plan.now) }
{
    for (i, status, code) in events {
        if *i >= plan.len() || code_of(alloc, scheduler, *i, *status) != *code {
            return false;
        }
    }
    true
}

impl Row {
    /// What `run` has to say: it refuses the first event that is not allowed.
    fn listed(&self) -> Result<bool, Refused> {
        for (at, (_i, _status, code)) in self.events.iter().enumerate() {
            if *code != "ok" {
                return Err((at, *code, self.waits));
            }
        }
        Ok(self.end.is_some())
    }

    /// Whether a scheduler allows each event what is listed, and then shows what is listed.
    fn is_driven(&self, alloc: Global, plan: &Plan<'_>, scheduler: &mut Scheduler<'_>) -> bool
        requires { size scheduler.old ≡ length (plan_records plan.now) }
    {
        are_allowed(alloc, plan, scheduler, self.events) && is_shown(scheduler, self.views)
    }

    /// Whether a scheduler that is driven by hand does so, and the run ends as is listed.
    fn holds_by_hand(&self, alloc: Global, plan: &Plan<'_>, policy: Policy) -> bool {
        match Scheduler::new(alloc, plan, policy) {
            Ok(mut scheduler) => {
                self.is_driven(alloc, plan, &mut scheduler)
                    && ended(alloc, scheduler, self).unwrap_or(self.end.is_none())
            }
            Err(_) => false,
        }
    }
}

impl OnDone for Row {
    fn holds(&self, alloc: Global, done: &Done<'_>) -> bool {
        match self.end {
            Some(end) => is_end(alloc, done, end),
            None => false,
        }
    }
}

impl OnPlan for Row {
    fn holds(&self, alloc: Global, plan: &Plan<'_>) -> bool {
        let policy = policy(self.run.0, self.run.1);
        self.holds_by_hand(alloc, plan, policy)
            && listed(alloc, plan, policy, self.events) == self.listed()
    }
}

/// Two requests outside a group of two, one before it and one after it.
const AROUND: &str = r#"{"requests":[{"id":"a","method":"get","url":"X"},
    {"id":"p","method":"delete","url":"X","atomicityGroup":"g"},
    {"id":"q","method":"delete","url":"X","atomicityGroup":"g"},
    {"id":"z","method":"get","url":"X"}]}"#;

const ROWS: &[Row] = &[
    Row {
        document: r#"{"requests":[]}"#,
        run: (Continue, 0),
        events: &[],
        views: [&[], &[]],
        end: Some((&[], &[])),
        waits: None,
    },
    Row {
        document: THREE,
        run: (Continue, 0),
        events: &[],
        views: [&[0, 1], &[]],
        end: None,
        waits: None,
    },
    Row {
        document: THREE,
        run: (Continue, 0),
        events: &[(2, 0, "S4")],
        views: [&[0, 1], &[]],
        end: None,
        waits: Some(One(0)),
    },
    Row {
        document: REFERENCE,
        run: (Continue, 0),
        events: &[(1, 0, "S4")],
        views: [&[0], &[]],
        end: None,
        waits: Some(One(0)),
    },
    Row {
        document: REFERENCE,
        run: (Continue, 0),
        events: &[
            (0, 200, "P1"),
            (0, 0, "ok"),
            (0, 0, "S1"),
            (0, 199, "P2"),
            (0, 600, "P2"),
            (0, 599, "ok"),
            (0, 200, "P1"),
        ],
        views: [&[], &[]],
        end: Some((&[599, 424], &[])),
        waits: None,
    },
    Row {
        document: THREE,
        run: (Continue, 0),
        events: &[(0, 0, "ok"), (0, 700, "P2")],
        views: [&[1], &[0]],
        end: None,
        waits: None,
    },
    Row {
        document: THREE,
        run: (Continue, 0),
        events: &[(0, 0, "ok"), (0, 200, "ok"), (1, 0, "ok")],
        views: [&[2], &[1]],
        end: None,
        waits: None,
    },
    Row {
        document: THREE,
        run: (Continue, 0),
        events: &[
            (0, 0, "ok"),
            (0, 304, "ok"),
            (2, 0, "S3"),
            (1, 0, "ok"),
            (1, 200, "ok"),
        ],
        views: [&[], &[]],
        end: Some((&[304, 200, 424], &[])),
        waits: None,
    },
    Row {
        document: THREE,
        run: (Stop, 0),
        events: &[(0, 0, "ok"), (0, 304, "ok"), (1, 0, "ok"), (1, 200, "ok")],
        views: [&[], &[]],
        end: Some((&[304, 200, 424], &[])),
        waits: None,
    },
    Row {
        document: THREE,
        run: (Stop, 0),
        events: &[(0, 0, "ok"), (0, 404, "ok"), (1, 0, "S2"), (2, 0, "S2")],
        views: [&[], &[]],
        end: Some((&[404, 424, 424], &[])),
        waits: None,
    },
    Row {
        document: THREE,
        run: (Stop, 0),
        events: &[(0, 0, "ok"), (0, 404, "ok"), (0, 0, "S1")],
        views: [&[], &[]],
        end: Some((&[404, 424, 424], &[])),
        waits: None,
    },
    Row {
        document: THREE,
        run: (Continue, 1),
        events: &[(0, 0, "ok"), (2, 0, "S4"), (1, 0, "S5")],
        views: [&[], &[0]],
        end: None,
        waits: Some(One(0)),
    },
    Row {
        document: THREE,
        run: (Continue, 1),
        events: &[(0, 0, "ok"), (1, 0, "S5"), (0, 200, "ok"), (1, 0, "ok")],
        views: [&[], &[1]],
        end: None,
        waits: None,
    },
    Row {
        document: GROUP,
        run: (Continue, 0),
        events: &[
            (0, 0, "ok"),
            (0, 201, "ok"),
            (1, 0, "ok"),
            (1, 201, "ok"),
            (2, 0, "ok"),
            (2, 409, "ok"),
        ],
        views: [&[], &[]],
        end: Some((&[424, 424, 409], &[(1, 201), (0, 201)])),
        waits: None,
    },
    Row {
        document: PASSED_ON,
        run: (Continue, 0),
        events: &[
            (0, 0, "ok"),
            (0, 200, "ok"),
            (1, 0, "ok"),
            (2, 0, "ok"),
            (1, 200, "ok"),
            (3, 0, "S4"),
        ],
        views: [&[], &[2]],
        end: None,
        waits: Some(Group(1)),
    },
    Row {
        document: PASSED_ON,
        run: (Continue, 0),
        events: &[
            (0, 0, "ok"),
            (1, 0, "ok"),
            (0, 500, "ok"),
            (2, 0, "S3"),
            (3, 0, "S3"),
            (1, 201, "ok"),
        ],
        views: [&[], &[]],
        end: Some((&[500, 424, 424, 424], &[(1, 201)])),
        waits: None,
    },
    Row {
        document: PASSED_ON,
        run: (Continue, 0),
        events: &[(0, 0, "ok"), (0, 500, "ok"), (1, 0, "S3")],
        views: [&[], &[]],
        end: Some((&[500, 424, 424, 424], &[])),
        waits: None,
    },
    Row {
        document: AROUND,
        run: (Stop, 0),
        events: &[
            (1, 0, "ok"),
            (1, 201, "ok"),
            (3, 0, "ok"),
            (0, 0, "ok"),
            (0, 404, "ok"),
            (2, 0, "S2"),
            (3, 200, "ok"),
        ],
        views: [&[], &[]],
        end: Some((&[404, 424, 424, 200], &[(1, 201)])),
        waits: None,
    },
    Row {
        document: AROUND,
        run: (Stop, 0),
        events: &[
            (1, 0, "ok"),
            (1, 201, "ok"),
            (3, 0, "ok"),
            (0, 0, "ok"),
            (0, 404, "ok"),
            (3, 200, "ok"),
        ],
        views: [&[], &[]],
        end: Some((&[404, 424, 424, 200], &[(1, 201)])),
        waits: None,
    },
    Row {
        document: AROUND,
        run: (Continue, 0),
        events: &[
            (1, 0, "ok"),
            (1, 201, "ok"),
            (3, 0, "ok"),
            (0, 0, "ok"),
            (0, 404, "ok"),
            (3, 200, "ok"),
        ],
        views: [&[2], &[]],
        end: None,
        waits: None,
    },
];

#[test]
fn takes_events_one_by_one_and_as_a_list(rt: HostRuntime) -> Result<(), Fail> {
    for row in ROWS {
        expect(holds_of(rt.alloc(), row.document, row), row.document)?;
    }
    Ok(())
}

#[test]
fn takes_no_width_of_0(rt: HostRuntime) {
    assert!(rt; Policy::new(Continue, 0).is_none() && Policy::new(Stop, 1).is_some());
}

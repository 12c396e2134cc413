//! Parts of a live run: what is in one, that no request is in two, and that a run on which nothing is on its way gives one
//! with a request.

ghost use Rattle.std.specs.Prelude.{◌≡◌, true, ℕ, Contains, IfSome, length};
ghost use Rattle.odb_engine.specs.Cascade.{Accepts};
ghost use Rattle.odb_live.specs.Live.{Opens};
ghost use Rattle.odb_sched.specs.run.State.{size};
ghost use Rattle.odb_send.specs.Units.{marked};
ghost use Rattle.odb_tests_live.specs.Parts.{AreGiven, IsGiven};

use crate::laws::live::{FREE, NO_EVENTS, ONE_EVENT, events_in};
use odb_check::Seed;
use odb_check::laws::every_batch;
use odb_live::laws::parts::every_part;
use odb_live::{LiveRun, Part, open_run};
use odb_sched::Policy;
use odb_sched::laws::every_live_run;
use odb_testing::PAIR;
use std::alloc::Global;

/// Gives the next part of a run that was opened for a batch.
fn gives(
    alloc: Global,
    live: &mut LiveRun,
    batch: &[u8],
    events: &[u8],
    policy: Policy,
    limit: u32,
) -> Option<Part>
    requires { Opens policy batch.now events.now live.old }
    ensures { IfSome result (λ part. Accepts batch.now (λ requests.
        IsGiven requests live.old live.new part)) }
{
    every_batch();
    every_part();
    let _events = events;
    let _policy = policy;
    let Ok(Some(part)) = live.part(alloc, batch, limit, Seed::none()) else {
        return None;
    };
    live.give(&part.positions);
    Some(part)
}

/// Gives the next part of a run. The requests that were in a part stay so, and none of them is in this one.
fn gives_more(alloc: Global, live: &mut LiveRun, batch: &[u8], limit: u32) -> Option<Part>
    requires labels { length live.old.labels ≡ size live.old.run }
    requires marks { length live.old.out ≡ size live.old.run }
    ensures kept { (i : ℕ) → marked live.old.out i ≡ true → marked live.new.out i ≡ true }
    ensures apart { IfSome result (λ part. (i : ℕ) → marked live.old.out i ≡ true
        → ¬ Contains part.positions.items i) }
{
    every_part();
    let Ok(Some(part)) = live.part(alloc, batch, limit, Seed::none()) else {
        return None;
    };
    live.give(&part.positions);
    Some(part)
}

/// Gives two parts of a run that was opened for a batch, one after the other. No request is in both.
fn gives_two(
    alloc: Global,
    live: &mut LiveRun,
    batch: &[u8],
    events: &[u8],
    policy: Policy,
    limit: u32,
) -> Option<(Part, Part)>
    requires { Opens policy batch.now events.now live.old }
    ensures { IfSome result (λ both. AreGiven live.new both.0 both.1) }
{
    every_batch();
    let first = gives(alloc, live, batch, events, policy, limit)?;
    let second = gives_more(alloc, live, batch, limit)?;
    Some((first, second))
}

/// Returns the first part of a run that was opened after no events, unless it is finished. The part has a request.
fn first_part(
    alloc: Global,
    live: &LiveRun,
    batch: &[u8],
    events: &[u8],
    policy: Policy,
    limit: u32,
) -> Option<Part>
    requires { Opens policy batch.now events.now live.now }
    ensures { IfSome result (λ part. (i : ℕ) × Contains part.positions.items i) }
{
    every_part();
    every_live_run();
    odb_doc::laws::one_history();
    let _policy = policy;
    let found = events_in(alloc, events)?;
    if !found.is_empty() || live.run().is_finished() {
        return None;
    }
    match live.part(alloc, batch, limit, Seed::none()) {
        Ok(Some(part)) => Some(part),
        _ => None,
    }
}

/// Returns the next part, of one request at most, of a run that was opened after these events, unless it is finished or a
/// request is running. The part has a request.
fn next_alone(
    alloc: Global,
    live: &LiveRun,
    batch: &[u8],
    events: &[u8],
    policy: Policy,
) -> Option<Part>
    requires { Opens policy batch.now events.now live.now }
    ensures { IfSome result (λ part. (i : ℕ) × Contains part.positions.items i) }
{
    every_batch();
    every_part();
    every_live_run();
    odb_doc::laws::one_batch();
    let _events = events;
    let _policy = policy;
    if live.run().is_finished() || !live.run().running().is_empty() {
        return None;
    }
    match live.part(alloc, batch, 1, Seed::none()) {
        Ok(Some(part)) => Some(part),
        _ => None,
    }
}

/// What a test asks of a run that was opened for a batch after events.
trait OnLive {
    ghost use Rattle.odb_live.specs.Live.{Opens};

    /// Whether it holds. A call that runs out of memory does not hold.
    fn holds(
        &self,
        alloc: Global,
        live: &mut LiveRun,
        batch: &[u8],
        events: &[u8],
        policy: Policy,
    ) -> bool
        requires { Opens policy batch.now events.now live.old };
}

/// Whether a run of `PAIR` after these events is what is asked for.
fn holds_after<T: OnLive>(alloc: Global, events: &[u8], task: &T) -> bool {
    let (batch, policy) = (PAIR.as_bytes(), FREE);
    match open_run(alloc, batch, events, policy, Seed::none()) {
        Ok(mut live) => task.holds(alloc, &mut live, batch, events, policy),
        Err(_) => false,
    }
}

/// A part of so many requests at most, and which it has.
#[derive(Drop)]
struct Given(u32, &'static [u32]);

impl OnLive for Given {
    fn holds(
        &self,
        alloc: Global,
        live: &mut LiveRun,
        batch: &[u8],
        events: &[u8],
        policy: Policy,
    ) -> bool {
        match gives(alloc, live, batch, events, policy, self.0) {
            Some(part) => part.positions.as_slice() == self.1,
            None => false,
        }
    }
}

/// Two parts, one after the other.
#[derive(Drop)]
struct BothGiven(u32, [&'static [u32]; 2]);

impl OnLive for BothGiven {
    fn holds(
        &self,
        alloc: Global,
        live: &mut LiveRun,
        batch: &[u8],
        events: &[u8],
        policy: Policy,
    ) -> bool {
        match gives_two(alloc, live, batch, events, policy, self.0) {
            Some((one, other)) => {
                one.positions.as_slice() == self.1[0] && other.positions.as_slice() == self.1[1]
            }
            None => false,
        }
    }
}

/// The one request of the next part, or none if there is no such part.
#[derive(Drop)]
struct NextAlone(Option<u32>);

impl OnLive for NextAlone {
    fn holds(
        &self,
        alloc: Global,
        live: &mut LiveRun,
        batch: &[u8],
        events: &[u8],
        policy: Policy,
    ) -> bool {
        match next_alone(alloc, live, batch, events, policy) {
            Some(part) => part.positions.first().copied() == self.0,
            None => self.0.is_none(),
        }
    }
}

/// How many requests the first part has, or none if there is no such part.
#[derive(Drop)]
struct FirstCount(u32, Option<usize>);

impl OnLive for FirstCount {
    fn holds(
        &self,
        alloc: Global,
        live: &mut LiveRun,
        batch: &[u8],
        events: &[u8],
        policy: Policy,
    ) -> bool {
        match first_part(alloc, live, batch, events, policy, self.0) {
            Some(part) => Some(part.positions.len()) == self.1,
            None => self.1.is_none(),
        }
    }
}

#[test]
fn a_part_has_what_may_be_sent(rt: HostRuntime) {
    let alloc = rt.alloc();
    assert!(rt; holds_after(alloc, NO_EVENTS, &Given(2, &[0, 1])));
    assert!(rt; holds_after(alloc, NO_EVENTS, &Given(1, &[0])));
    assert!(rt; holds_after(alloc, ONE_EVENT, &Given(2, &[])));
    assert!(rt; holds_after(alloc, NO_EVENTS, &FirstCount(1, Some(1))));
    assert!(rt; holds_after(alloc, ONE_EVENT, &FirstCount(1, None)));
}

/// Recorded events, and the request that is sent next, if the run is not finished and no request is running.
const NEXT: &[(&[u8], Option<u32>)] = &[
    (NO_EVENTS, Some(0)),
    (ONE_EVENT, None),
    (
        br#"{"events":[{"start":"1"},{"report":"1","status":200}]}"#,
        Some(1),
    ),
    (
        br#"{"events":[{"start":"1"},{"report":"1","status":404}]}"#,
        None,
    ),
];

#[test]
fn a_run_goes_on(rt: HostRuntime) {
    for (events, wanted) in NEXT {
        assert!(rt; holds_after(rt.alloc(), events, &NextAlone(*wanted)));
    }
}

#[test]
fn no_request_is_in_two_parts(rt: HostRuntime) {
    assert!(rt; holds_after(rt.alloc(), NO_EVENTS, &BothGiven(2, [&[0, 1], &[]])));
    assert!(rt; holds_after(rt.alloc(), NO_EVENTS, &BothGiven(1, [&[0], &[]])));
}

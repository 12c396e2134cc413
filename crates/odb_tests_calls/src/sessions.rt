//! Lists of calls on a live run: what the run keeps, that `match` accepts its response, that it gives a part unless it is
//! finished, and that calls which are refused or ask something change no end.

ghost use Rattle.std.specs.Prelude.{◌≡◌, ◌∷◌, [], true, ℕ, List, Contains, IfSome, Some, length};
ghost use Rattle.odb_engine.specs.Cascade.{Accepts};
ghost use Rattle.odb_live.specs.Live.{Opens};
ghost use Rattle.odb_engine.specs.Written.{IsDone};
ghost use Rattle.odb_engine.specs.declared.tasks.task.Task.TheVariants as tasks;
ghost use Rattle.odb_reply.specs.declared.strictness.Strictness.TheVariants.{Units};
ghost use Rattle.odb_calls.specs.Sessions as session;
ghost use Rattle.odb_calls.specs.Sessions.{AreAlike, IsSession, KeepsSession};
ghost use Rattle.odb_tests_calls.specs.Calls.{answered};

use odb_calls::laws::{every_session, one_session};
use odb_calls::live::{give_response, report, start};
use odb_calls::units::state;
use odb_check::Seed;
use odb_check::laws::every_batch;
use odb_doc::laws::one_batch;
use odb_live::{LiveRun, Part, open_run};
use odb_sched::{Mode, Policy};
use odb_testing::PAIR;
use std::alloc::Global;

/// Starts the first request of a run.
fn starts(live: &mut LiveRun) -> u32
    ensures { IsSession live.old (session.Start 0 result ∷ []) live.new }
{
    start(live, 0)
}

/// Reports that it has succeeded.
fn reports(live: &mut LiveRun, alloc: Global) -> u32
    ensures { IsSession live.old (session.Report 0 204 [] [] result ∷ []) live.new }
{
    report(live, alloc, 0, 204, b"", b"")
}

/// Starts and reports the first request of a run, and returns what the two calls return.
fn answers(live: &mut LiveRun, alloc: Global) -> (u32, u32)
    ensures { IsSession live.old (answered result) live.new }
{
    every_session();
    let started = starts(live);
    let reported = reports(live, alloc);
    (started, reported)
}

/// Answers the first request of a run that was opened for a batch after events.
fn keeps(
    live: &mut LiveRun,
    alloc: Global,
    batch: &[u8],
    events: &[u8],
    policy: Policy,
) -> (u32, u32)
    requires { Opens policy batch.now events.now live.old }
    ensures { Accepts batch.now (λ requests. KeepsSession policy requests events.now live.old
        (answered result) live.new) }
{
    every_session();
    let _batch = batch;
    let _events = events;
    let _policy = policy;
    answers(live, alloc)
}

/// Answers the first request of such a run, and writes its response if it is finished then: `match` accepts the text.
fn writes(
    live: &mut LiveRun,
    alloc: Global,
    batch: &[u8],
    events: &[u8],
    policy: Policy,
    buffer: &mut [u8],
) -> Option<usize>
    requires { Opens policy batch.now events.now live.old }
    ensures { IfSome result (λ count. (text : List ℕ) × (length text ≡ count)
        × IsDone (tasks.Match policy.mode (Some Units)) batch.now text) }
{
    every_session();
    let _batch = batch;
    let _events = events;
    let _policy = policy;
    let _returned = answers(live, alloc);
    let mut count = 0;
    if give_response(live, alloc, buffer, &mut count) != 0 || count > 1_000 {
        return None;
    }
    Some(count)
}

/// Asks for the state of the first request of such a run, and returns the next part, of one request at most, unless the run
/// is finished or a request is running. The part has a request.
fn gives(live: &LiveRun, alloc: Global, batch: &[u8], events: &[u8], policy: Policy) -> Option<Part>
    requires { Opens policy batch.now events.now live.now }
    ensures { IfSome result (λ part. (i : ℕ) × Contains part.positions.items i) }
{
    every_batch();
    every_session();
    one_batch();
    let _events = events;
    let _policy = policy;
    let mut numbers = (0, 0);
    let _returned = state(live, 0, &mut numbers.0, &mut numbers.1);
    if live.run().is_finished() || !live.run().running().is_empty() {
        return None;
    }
    match live.part(alloc, batch, 1, Seed::none()) {
        Ok(Some(part)) => Some(part),
        _ => None,
    }
}

/// Makes the same calls on two runs that were opened for the same documents, but asks something before on one. Returns
/// whether they return the same: then the runs are alike.
fn are_alike(
    one: &mut LiveRun,
    other: &mut LiveRun,
    alloc: Global,
    batch: &[u8],
    events: &[u8],
    policy: Policy,
) -> bool
    requires one { Opens policy batch.now events.now one.old }
    requires other { Opens policy batch.now events.now other.old }
    ensures { result ≡ true → AreAlike one.new other.new }
{
    one_session();
    let _batch = batch;
    let _events = events;
    let _policy = policy;
    let mut numbers = (0, 0);
    let _returned = state(other, 0, &mut numbers.0, &mut numbers.1);
    let returned = answers(one, alloc);
    let again = answers(other, alloc);
    if returned.0 != again.0 {
        return false;
    }
    if returned.1 != again.1 {
        return false;
    }
    true
}

/// Writes the responses of two such runs, if they are finished, and returns their lengths.
fn lengths_of(
    one: &LiveRun,
    other: &LiveRun,
    alloc: Global,
    buffer: &mut [u8],
) -> Option<(usize, usize)>
    requires { AreAlike one.now other.now }
    ensures { IfSome result (λ both. both.0 ≡ both.1) }
{
    one_session();
    let mut counts = (0, 0);
    if give_response(one, alloc, buffer, &mut counts.0) != 0 {
        return None;
    }
    if give_response(other, alloc, buffer, &mut counts.1) != 0 {
        return None;
    }
    Some(counts)
}

const ONE: &[u8] = br#"{"requests":[{"id":"1","method":"get","url":"A"}]}"#;

const NO_EVENTS: &[u8] = br#"{"events":[]}"#;

const STARTED: &[u8] = br#"{"events":[{"start":"1"}]}"#;

const FREE: Policy = Policy {
    mode: Mode::Continue,
    width: 2,
};

/// What a test asks of a run that was opened for a batch after events.
trait OnLive {
    ghost use Rattle.odb_live.specs.Live.{Opens};

    /// Whether it holds. A call that runs out of memory does not hold.
    fn holds(
        &self,
        alloc: Global,
        live: &mut LiveRun,
        batch: &[u8],
        events: &[u8],
        policy: Policy,
    ) -> bool
        requires { Opens policy batch.now events.now live.old };
}

/// Whether a run of a batch after these events is what is asked for.
fn holds_after<T: OnLive>(alloc: Global, batch: &[u8], events: &[u8], task: &T) -> bool {
    let policy = FREE;
    match open_run(alloc, batch, events, policy, Seed::none()) {
        Ok(mut live) => task.holds(alloc, &mut live, batch, events, policy),
        Err(_) => false,
    }
}

/// What the start and the report of the first request return.
#[derive(Drop)]
struct Returned(u32, u32);

impl OnLive for Returned {
    fn holds(
        &self,
        alloc: Global,
        live: &mut LiveRun,
        batch: &[u8],
        events: &[u8],
        policy: Policy,
    ) -> bool {
        keeps(live, alloc, batch, events, policy) == (self.0, self.1)
    }
}

/// How long the response is after both, if the run is finished.
#[derive(Drop)]
struct Length(Option<usize>);

impl OnLive for Length {
    fn holds(
        &self,
        alloc: Global,
        live: &mut LiveRun,
        batch: &[u8],
        events: &[u8],
        policy: Policy,
    ) -> bool {
        let mut buffer = [0; 100];
        writes(live, alloc, batch, events, policy, &mut buffer) == self.0
    }
}

/// Which request is in the next part, if there is such a part.
#[derive(Drop)]
struct FirstGiven(Option<u32>);

impl OnLive for FirstGiven {
    fn holds(
        &self,
        alloc: Global,
        live: &mut LiveRun,
        batch: &[u8],
        events: &[u8],
        policy: Policy,
    ) -> bool {
        match gives(live, alloc, batch, events, policy) {
            Some(part) => part.positions.first().copied() == self.0,
            None => self.0.is_none(),
        }
    }
}

/// How long the responses of two runs are.
fn lengths(
    one: &mut LiveRun,
    other: &mut LiveRun,
    alloc: Global,
    batch: &[u8],
    events: &[u8],
    policy: Policy,
) -> Option<(usize, usize)>
    requires one { Opens policy batch.now events.now one.old }
    requires other { Opens policy batch.now events.now other.old }
{
    let mut buffer = [0; 100];
    if !are_alike(one, other, alloc, batch, events, policy) {
        return None;
    }
    lengths_of(one, other, alloc, &mut buffer)
}

/// How long the responses of this run and of another that is opened are, if they are finished.
#[derive(Drop)]
struct EndsAlike(Option<(usize, usize)>);

impl OnLive for EndsAlike {
    fn holds(
        &self,
        alloc: Global,
        live: &mut LiveRun,
        batch: &[u8],
        events: &[u8],
        policy: Policy,
    ) -> bool {
        match open_run(alloc, batch, events, policy, Seed::none()) {
            Ok(mut other) => lengths(live, &mut other, alloc, batch, events, policy) == self.0,
            Err(_) => false,
        }
    }
}

#[test]
fn a_run_keeps_its_promises_whatever_calls_are_made(rt: HostRuntime) {
    let alloc = rt.alloc();
    assert!(rt; holds_after(alloc, PAIR.as_bytes(), NO_EVENTS, &Returned(0, 0)));
    assert!(rt; holds_after(alloc, ONE, STARTED, &Returned(11, 0)));
}

#[test]
fn match_accepts_what_a_run_writes(rt: HostRuntime) {
    let alloc = rt.alloc();
    assert!(rt; holds_after(alloc, ONE, NO_EVENTS, &Length(Some(40))));
    assert!(rt; holds_after(alloc, PAIR.as_bytes(), NO_EVENTS, &Length(None)));
}

#[test]
fn a_run_gives_a_part_unless_it_is_finished(rt: HostRuntime) {
    let alloc = rt.alloc();
    assert!(rt; holds_after(alloc, PAIR.as_bytes(), NO_EVENTS, &FirstGiven(Some(0))));
    assert!(rt; holds_after(alloc, PAIR.as_bytes(), STARTED, &FirstGiven(None)));
}

#[test]
fn the_same_calls_end_alike(rt: HostRuntime) {
    let alloc = rt.alloc();
    assert!(rt; holds_after(alloc, ONE, NO_EVENTS, &EndsAlike(Some((40, 40)))));
    assert!(rt; holds_after(alloc, PAIR.as_bytes(), NO_EVENTS, &EndsAlike(None)));
}

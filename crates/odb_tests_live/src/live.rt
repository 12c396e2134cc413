//! Live runs: the positions of their requests, and the requests that have to be undone.

use odb_check::Seed;
use odb_doc::Outcome;
use odb_engine::Halt;
use odb_live::{LiveRun, open_run};
use odb_sched::{Mode, Policy};
use std::alloc::Global;

/// A group of three.
const GROUP: &str = r#"{"requests":[{"id":"p","method":"delete","url":"X","atomicityGroup":"g"},
    {"id":"q","method":"delete","url":"X","atomicityGroup":"g"},
    {"id":"r","method":"delete","url":"X","atomicityGroup":"g"}]}"#;

/// The first request of the group has succeeded, and the second is running.
const EVENTS: &[u8] = br#"{"events":[{"start":"p"},{"report":"p","status":201},{"start":"q"}]}"#;

/// Whether a run has these ids, and finds their positions and no other.
fn has_ids(alloc: Global, live: &LiveRun) -> bool {
    live.ids(alloc).is_ok_and(|ids| ids.as_str() == "p\nq\nr\n")
        && live.position_of(b"p") == Some(0)
        && live.position_of(b"r") == Some(2)
        && live.position_of(b"g") == None
}

/// Whether the second request fails the group, so that the first has to be undone.
fn is_undone(alloc: Global, live: &mut LiveRun) -> bool {
    if live.run().len() < 3 || live.undone(alloc).is_ok() {
        return false;
    }
    live.report(1, Outcome::bare(409)).is_ok()
        && live
            .undone(alloc)
            .is_ok_and(|found| found.as_slice() == [0].as_slice())
}

fn holds(alloc: Global) -> Result<bool, Halt> {
    let batch = GROUP.as_bytes();
    let mut live = open_run(
        alloc,
        batch,
        EVENTS,
        Policy::free(Mode::Continue),
        Seed::none(),
    )?;
    Ok(has_ids(alloc, &live) && is_undone(alloc, &mut live))
}

#[test]
fn a_live_run_finds_positions_and_what_is_undone(rt: HostRuntime) {
    assert!(rt; holds(rt.alloc()) == Ok(true));
}

//! A run that is driven by hand.

use odb_check::Seed;
use odb_doc::Outcome;
use odb_live::{LiveRun, open_run};
use odb_sched::{Mode, Policy};
use odb_testing::fail::Fail;
use odb_testing::rows::expect;
use std::alloc::Global;
use std::test;

/// Sends the requests of a batch, one after another, each once it may start, and returns the line of the
/// response.
fn send_all(alloc: Global, seed: Seed, document: &[u8]) -> Result<String, Fail> {
    let (none, policy) = (br#"{"events":[]}"#, Policy::free(Mode::Continue));
    let mut live = open_run(alloc, document, none, policy, seed)?;
    for _ in 0..live.run().len() {
        send_next(&mut live)?;
    }
    Ok(live.response(alloc)?)
}

/// Sends a request that may start, if there is one, and reports its outcome.
fn send_next(live: &mut LiveRun) -> Result<(), Fail> {
    if let Some(i) = live.run().ready().first().copied() {
        live.start(i)?;
        live.report(i, send(i))?;
    }
    Ok(())
}

/// Sends a request and returns its outcome: each ends with 200.
fn send(_i: u32) -> Outcome {
    Outcome::bare(200)
}

/// Batches with what they are answered.
const ROWS: &[(&str, &str)] = &[
    (
        r#"{"requests":[{"id":"a","method":"post","url":"X","body":{"Name":"A"}},
            {"id":"b","method":"get","url":"X"}]}"#,
        r#"{"responses":[{"id":"a","status":200},{"id":"b","status":200}]}"#,
    ),
    (
        r#"{"requests":[{"id":"p","method":"post","url":"X","atomicityGroup":"g"},
            {"id":"q","method":"get","url":"X","dependsOn":["g"]}]}"#,
        r#"{"responses":[{"atomicityGroup":"g","id":"p","status":200},{"id":"q","status":200}]}"#,
    ),
];

fn is_sent(alloc: Global, document: &str, want: &str) -> bool {
    match send_all(alloc, Seed::none(), document.as_bytes()) {
        Ok(found) => found.strip_suffix('\n') == Some(want),
        Err(_) => false,
    }
}

#[test]
fn drives_a_plan(rt: HostRuntime) -> Result<(), test::Fail> {
    for (document, sent) in ROWS {
        expect(is_sent(rt.alloc(), document, sent), sent)?;
    }
    Ok(())
}

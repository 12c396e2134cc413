//! Bodies that are reported to a live run as JSON text.

use odb_check::Seed;
use odb_doc::Outcome;
use odb_live::{LiveRun, open_run};
use odb_reply::JsonText;
use odb_sched::{Mode, Policy};
use odb_testing::rows::expect;
use std::alloc::Global;
use std::test::Fail;

const ONE: &[u8] = br#"{"requests":[{"id":"a","method":"get","url":"X"}]}"#;

const STARTED: &[u8] = br#"{"events":[{"start":"a"}]}"#;

/// The bytes of a body, and the line of the response, unless they are refused.
const EXAMPLES: &[(&[u8], Option<&str>)] = &[
    (
        b"9.990",
        Some("{\"responses\":[{\"body\":9.990,\"id\":\"a\",\"status\":200}]}\n"),
    ),
    (
        b" {\"b\" : 12345678901234567890123,\n\"a\":\"\\u00e9\"} ",
        Some(
            "{\"responses\":[{\"body\": {\"b\" : 12345678901234567890123,\n\"a\":\"\\u00e9\"} ,\"id\":\"a\",\"status\":200}]}\n",
        ),
    ),
    // The JSON null is no body.
    (
        b" null",
        Some("{\"responses\":[{\"id\":\"a\",\"status\":200}]}\n"),
    ),
    (b"", None),
    (b"1 2", None),
    (b"1e400", None),
    (b"\"\xff\"", None),
];

/// Reports a body of the first request, unless it is refused.
fn report(alloc: Global, live: &mut LiveRun, body: &[u8]) -> bool {
    let outcome = Outcome::bare(200);
    match JsonText::read(alloc, body) {
        Ok(text) if live.run().len() > 0 => live.report_text(0, outcome, text).is_ok(),
        _ => false,
    }
}

/// Whether a run shows a body so, or refuses it.
fn is_shown_by(alloc: Global, live: &mut LiveRun, body: &[u8], wanted: Option<&str>) -> bool {
    if !report(alloc, live, body) {
        return wanted.is_none();
    }
    match live.response(alloc) {
        Ok(text) => Some(text.as_str()) == wanted,
        Err(_) => false,
    }
}

/// The same of a run that is opened.
fn is_shown(alloc: Global, body: &[u8], wanted: Option<&str>) -> bool {
    let policy = Policy::free(Mode::Continue);
    match open_run(alloc, ONE, STARTED, policy, Seed::none()) {
        Ok(mut live) => is_shown_by(alloc, &mut live, body, wanted),
        Err(_) => false,
    }
}

#[test]
fn a_live_run_repeats_a_body_byte_for_byte(rt: HostRuntime) -> Result<(), Fail> {
    for (body, wanted) in EXAMPLES {
        expect(
            is_shown(rt.alloc(), body, *wanted),
            wanted.unwrap_or("refused"),
        )?;
    }
    Ok(())
}

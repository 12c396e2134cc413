//! Beside a run: the key of a batch, the response of a recorded run, and whether
//! the responses of a service fit.

use odb_check::Plan;
use odb_doc::{Batch, Events, parse};
use odb_reply::{Responses, match_responses, response_text};
use odb_sched::{Mode, Policy, resolve, run};
use odb_testing::fail::Fail;
use odb_testing::plans::{OnPlan, holds_of};
use odb_testing::rows::expect;
use std::alloc::Global;
use std::test;

/// Returns the text that all documents of the same batch have, as a key of a cache.
fn cache_key(alloc: Global, document: &[u8]) -> Result<String, Fail> {
    let value = parse(alloc, document)?;
    let batch = Batch::read(alloc, &value)?;
    Ok(batch.canonical(alloc)?)
}

/// Returns the text of the response of a recorded run, or `None` if the run is not finished.
fn recorded(alloc: Global, plan: &Plan<'_>, document: &[u8]) -> Result<Option<String>, Fail> {
    let named = Events::read(alloc, parse(alloc, document)?)?;
    let events = resolve(alloc, plan, named)?;
    let scheduler = run(alloc, plan, Policy::free(Mode::Continue), events)?;
    if !scheduler.is_finished() {
        return Ok(None);
    }
    Ok(Some(response_text(alloc, &scheduler.close())?))
}

/// Checks that the responses of a service fit a plan.
fn accept(alloc: Global, plan: &Plan<'_>, document: &[u8]) -> Result<(), Fail> {
    let value = parse(alloc, document)?;
    let responses = Responses::read(alloc, &value)?;
    match_responses(alloc, plan, &responses)?;
    Ok(())
}

/// Recorded events, and the text of the response if they finish the run.
#[derive(Clone, Copy)]
struct OfEvents(&'static str, Option<&'static str>);

impl OfEvents {
    /// Whether the response has this text, and fits.
    fn is_response(&self, alloc: Global, plan: &Plan<'_>, found: Option<&str>) -> bool {
        match found {
            Some(text) => found == self.1 && accept(alloc, plan, text.as_bytes()).is_ok(),
            None => self.1.is_none(),
        }
    }
}

impl OnPlan for OfEvents {
    fn holds(&self, alloc: Global, plan: &Plan<'_>) -> bool {
        match recorded(alloc, plan, self.0.as_bytes()) {
            Ok(found) => self.is_response(alloc, plan, found.as_deref()),
            Err(_) => false,
        }
    }
}

/// A batch, its key, recorded events, and the text of the response if they finish the run.
const ROWS: &[(&str, &str, &str, Option<&str>)] = &[
    (
        r#"{"requests":[{"url":"X","method":"GET","id":"a"}]}"#,
        r#"{"requests":[{"id":"a","method":"get","url":"X"}]}"#,
        r#"{"events":[{"start":"a"},{"report":"a","status":204}]}"#,
        Some(r#"{"responses":[{"id":"a","status":204}]}"#),
    ),
    (
        r#"{"requests":[{"id":"a","method":"get","url":"X"}]}"#,
        r#"{"requests":[{"id":"a","method":"get","url":"X"}]}"#,
        r#"{"events":[{"start":"a"}]}"#,
        None,
    ),
];

fn is_key(alloc: Global, document: &str, want: &str) -> bool {
    match cache_key(alloc, document.as_bytes()) {
        Ok(found) => found.as_str() == want,
        Err(_) => false,
    }
}

#[test]
fn keys_and_recorded_runs(rt: HostRuntime) -> Result<(), test::Fail> {
    for (document, key, events, text) in ROWS {
        expect(is_key(rt.alloc(), document, key), document)?;
        expect(
            holds_of(rt.alloc(), document, &OfEvents(events, *text)),
            events,
        )?;
    }
    Ok(())
}

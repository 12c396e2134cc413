//! A run that is executed.

use odb_check::{Plan, Seed, check_with};
use odb_doc::{Batch, Outcome, Request, parse};
use odb_exec::{Service, ServiceFault, execute};
use odb_reply::response_text;
use odb_sched::{Mode, Order, Policy};
use odb_testing::fail::Fail;
use odb_testing::rows::expect;
use std::alloc::Global;
use std::random::RandomSource;
use std::test;

/// Returns the text of the response to a batch whose requests the service performs. The seed of the
/// tables of names is random, so that nobody can choose names that make the check slow.
fn respond<R: RandomSource, S: Service>(
    alloc: Global,
    random: &R,
    document: &[u8],
    service: &mut S,
) -> Result<String, Fail> {
    let seed = Seed::random(random)?;
    let value = parse(alloc, document)?;
    let batch = Batch::read(alloc, &value)?;
    let plan = check_with(alloc, seed, &batch)?;
    answer(alloc, &plan, service)
}

/// Executes a plan by a service, and returns the text of the response.
fn answer<S: Service>(alloc: Global, plan: &Plan<'_>, service: &mut S) -> Result<String, Fail> {
    let policy = Policy::free(Mode::Continue);
    let trace = execute(alloc, plan, policy, &mut Order::First, service)?;
    Ok(response_text(alloc, &trace.done)?)
}

/// A service that creates what has a body, and reads all else.
#[derive(Drop)]
struct Store;

impl Service for Store {
    ghost offers = { λ _ _ _. Unit {0} };

    ghost performs = { λ _ _ _ _ _. Unit {0} };

    fn perform(&mut self, _i: u32, request: &Request<'_>) -> Result<Outcome, ServiceFault> {
        let status = if request.body.is_some() { 201 } else { 200 };
        Ok(Outcome::bare(status))
    }
}

/// Batches with what they are answered by a store.
const ROWS: &[(&str, &str)] = &[
    (
        r#"{"requests":[{"id":"a","method":"post","url":"X","body":{"Name":"A"}},
            {"id":"b","method":"get","url":"X"}]}"#,
        r#"{"responses":[{"id":"a","status":201},{"id":"b","status":200}]}"#,
    ),
    (
        r#"{"requests":[{"id":"p","method":"post","url":"X","atomicityGroup":"g"},
            {"id":"q","method":"get","url":"X","dependsOn":["g"]}]}"#,
        r#"{"responses":[{"atomicityGroup":"g","id":"p","status":200},{"id":"q","status":200}]}"#,
    ),
];

fn is_stored<R: RandomSource>(alloc: Global, random: &R, document: &str, want: &str) -> bool {
    match respond(alloc, random, document.as_bytes(), &mut Store) {
        Ok(found) => found.as_str() == want,
        Err(_) => false,
    }
}

#[test]
fn executes_a_plan(rt: HostRuntime) -> Result<(), test::Fail> {
    for (document, stored) in ROWS {
        expect(is_stored(rt.alloc(), &rt, document, stored), stored)?;
    }
    Ok(())
}

//! Units of a batch by the responses to it: what becomes of each, and the rest as a part of the batch.

ghost use Rattle.std.specs.Prelude.{◌≡◌, ◌<◌, true, [], ℕ, length, slice_index, IfSome};
ghost use Rattle.serde_json.specs.View.{view};
ghost use Rattle.odb_check.specs.Plans.{plan_records};
ghost use Rattle.odb_check.specs.Units.{unit_at};
ghost use Rattle.odb_doc.specs.Statuses as statuses;
ghost use Rattle.odb_reply.specs.Fits as fits;
ghost use Rattle.odb_reply.specs.ResponseDocuments.{entries};
ghost use Rattle.odb_send.specs.Answers.{recorded};
ghost use Rattle.odb_send.specs.Laws.{IsPartOfPlan};
ghost use Rattle.odb_send.specs.NextPart.{IsPartOf, positions_in};
ghost use Rattle.odb_send.specs.Rests.{IsRestOf, kept, records_in};
ghost use Rattle.odb_tests_text.specs.Units.{HasFate};

use crate::documents::{OnResponses, holds_of_responses};
use odb_check::Plan;
use odb_check::laws::every_plan;
use odb_doc::status::is_success;
use odb_reply::{Responses, Table};
use odb_send::laws::{every_part, every_rest, every_unit};
use odb_send::{Rest, positions_of, rest_of};
use serde_json::Value;
use std::alloc::Global;
use std::test::Fail;

/// The rest of a batch, and the positions of its requests.
type Found = (Rest, Vec<u32>);

/// Returns the rest of a batch. Its plan is that of the batch over its requests.
fn rest_in(alloc: Global, plan: &Plan<'_>, table: &Table, given: &Value) -> Option<Found>
    requires places { length (fits.places table.now) ≡ length (plan_records plan.now) }
    requires statuses { length (fits.statuses table.now) ≡ length (plan_records plan.now) }
    ensures rest { IfSome result (λ found. IsRestOf (plan_records plan.now) (fits.statuses table.now)
        (recorded (view given.now) (fits.places table.now) (fits.statuses table.now)) found.0) }
    ensures positions { IfSome result (λ found. found.1.items
        ≡ positions_in (plan_records plan.now) (kept found.0)) }
    ensures plan { IfSome result (λ found. IsPartOfPlan (plan_records plan.now) (kept found.0)
        (records_in (plan_records plan.now) found.0)) }
{
    every_plan(plan);
    every_rest();
    let Ok(rest) = rest_of(alloc, plan, table, given) else {
        return None;
    };
    match positions_of(alloc, plan, &rest) {
        Ok(positions) => Some((rest, positions)),
        Err(_) => None,
    }
}

/// Returns the rest of a batch, and which units are done. The rest is the part of all that is in it.
fn rest_as_part(
    alloc: Global,
    plan: &Plan<'_>,
    table: &Table,
    given: &Value,
) -> Option<(Found, Vec<bool>)>
    requires places { length (fits.places table.now) ≡ length (plan_records plan.now) }
    requires statuses { length (fits.statuses table.now) ≡ length (plan_records plan.now) }
    ensures { IfSome result (λ both. IsPartOf (plan_records plan.now) both.1.items (kept both.0.0)
        (length (plan_records plan.now))
        (recorded (view given.now) (fits.places table.now) (fits.statuses table.now)) both.0.0) }
{
    every_plan(plan);
    every_part();
    let found = rest_in(alloc, plan, table, given)?;
    match table.succeeded_units(alloc, plan) {
        Ok(done) => Some((found, done)),
        Err(_) => None,
    }
}

/// Returns whether all statuses are successes.
fn are_successes(table: &Table) -> bool
    ensures { result ≡ true → (i : ℕ) → i < length (fits.statuses table.now)
        → statuses.is_success (slice_index (fits.statuses table.now) i) ≡ true }
{
    let found = table.statuses();
    for i in 0..found.len() {
        if !is_success(found[i]) {
            return false;
        }
    }
    true
}

/// Returns the rest of a batch whose requests have all succeeded. It has no request.
fn rest_of_done(alloc: Global, plan: &Plan<'_>, table: &Table, given: &Value) -> Option<Found>
    requires places { length (fits.places table.now) ≡ length (plan_records plan.now) }
    requires statuses { length (fits.statuses table.now) ≡ length (plan_records plan.now) }
    ensures { IfSome result (λ found. records_in (plan_records plan.now) found.0 ≡ []) }
{
    every_rest();
    if !are_successes(table) {
        return None;
    }
    rest_in(alloc, plan, table, given)
}

/// Returns whether the unit of a request is done, and whether it is in the rest. If neither, it is left out.
fn fate_of(
    alloc: Global,
    plan: &Plan<'_>,
    responses: &Responses<'_>,
    table: &Table,
    given: &Value,
    i: u32,
) -> Option<(bool, bool)>
    requires request { i < length (plan_records plan.now) }
    requires fits { fits.Fits (plan_records plan.now) (entries responses.now) }
    requires table { fits.IsTableOf (plan_records plan.now) (entries responses.now)
        (fits.places table.now) (fits.statuses table.now) }
    ensures { IfSome result (λ both. HasFate (plan_records plan.now) (fits.statuses table.now)
        (unit_at (plan_records plan.now) i) both.0 both.1) }
{
    every_plan(plan);
    every_unit();
    let _responses = responses;
    let Ok(rest) = rest_of(alloc, plan, table, given) else {
        return None;
    };
    match table.succeeded_units(alloc, plan) {
        Ok(done) => Some((done[plan.unit_of(i) as usize], rest.contains(plan, i))),
        Err(_) => None,
    }
}

/// Responses to the batch; for each request a letter: `d` if its unit is done, `r` if it is in the rest, `l` if it is left out;
/// and the positions of the requests in the rest.
type Row = (&'static str, &'static str, &'static [u32]);

/// `b` needs `a`, and the group of `c` and `d` needs nothing.
const BATCH: &str =
    r#"{"requests":[{"id":"a","method":"post","url":"A"},{"id":"b","method":"get","url":"B","dependsOn":["a"]},
    {"id":"c","atomicityGroup":"g","method":"get","url":"C"},{"id":"d","atomicityGroup":"g","method":"post","url":"D"}]}"#;

/// The letters if all units are done.
const ALL_DONE: &str = "dddd";

const ROWS: &[Row] = &[
    (
        r#"{"responses":[{"id":"a","status":201},{"id":"b","status":200},{"id":"c","status":200,"atomicityGroup":"g"},
            {"id":"d","status":201,"atomicityGroup":"g"}]}"#,
        ALL_DONE,
        &[],
    ),
    (
        r#"{"responses":[{"id":"a","status":201},{"id":"b","status":503},{"id":"c","status":200,"atomicityGroup":"g"},
            {"id":"d","status":429,"atomicityGroup":"g"}]}"#,
        "drrr",
        &[1, 2, 3],
    ),
    (
        r#"{"responses":[{"id":"a","status":504},{"id":"b","status":424},{"id":"c","status":200,"atomicityGroup":"g"},
            {"id":"d","status":429,"atomicityGroup":"g"}]}"#,
        "llrr",
        &[2, 3],
    ),
    (
        r#"{"responses":[{"id":"a","status":400},{"id":"b","status":424},{"id":"c","status":200,"atomicityGroup":"g"},
            {"id":"d","status":504,"atomicityGroup":"g"}]}"#,
        "llll",
        &[],
    ),
];

/// Returns the letter of a request.
fn letter_of(
    alloc: Global,
    plan: &Plan<'_>,
    responses: &Responses<'_>,
    table: &Table,
    given: &Value,
    i: u32,
) -> Option<u8>
    requires request { i < length (plan_records plan.now) }
    requires fits { fits.Fits (plan_records plan.now) (entries responses.now) }
    requires table { fits.IsTableOf (plan_records plan.now) (entries responses.now)
        (fits.places table.now) (fits.statuses table.now) }
{
    match fate_of(alloc, plan, responses, table, given, i)? {
        (true, false) => Some(b'd'),
        (false, true) => Some(b'r'),
        (false, false) => Some(b'l'),
        (true, true) => None,
    }
}

/// Whether each request has its letter.
fn have_letters(
    alloc: Global,
    plan: &Plan<'_>,
    responses: &Responses<'_>,
    table: &Table,
    given: &Value,
    letters: &[u8],
) -> bool
    requires fits { fits.Fits (plan_records plan.now) (entries responses.now) }
    requires table { fits.IsTableOf (plan_records plan.now) (entries responses.now)
        (fits.places table.now) (fits.statuses table.now) }
{
    if letters.len() != plan.len() as usize {
        return false;
    }
    for i in 0..plan.len() {
        if letter_of(alloc, plan, responses, table, given, i) != Some(letters[i as usize]) {
            return false;
        }
    }
    true
}

/// Whether the rest has these requests, and [`rest_of_done`] returns one if and only if all requests have succeeded.
fn is_rest(
    alloc: Global,
    plan: &Plan<'_>,
    table: &Table,
    given: &Value,
    positions: &[u32],
    all_done: bool,
) -> bool
    requires places { length (fits.places table.now) ≡ length (plan_records plan.now) }
    requires statuses { length (fits.statuses table.now) ≡ length (plan_records plan.now) }
{
    let none = rest_of_done(alloc, plan, table, given);
    match rest_as_part(alloc, plan, table, given) {
        Some(both) => both.0.1.as_slice() == positions && none.is_some() == all_done,
        None => false,
    }
}

/// What becomes of each request by the responses of a row, and the rest, which has the requests of the row.
#[derive(Drop)]
struct Fates<'a>(&'a Row);

impl OnResponses for Fates<'_> {
    fn holds(
        &self,
        alloc: Global,
        _document: &[u8],
        _value: &Value,
        plan: &Plan<'_>,
        given: &Value,
        responses: &Responses<'_>,
        table: &Table,
    ) -> bool {
        let (_, letters, positions) = *self.0;
        have_letters(alloc, plan, responses, table, given, letters.as_bytes())
            && is_rest(alloc, plan, table, given, positions, letters == ALL_DONE)
    }
}

#[test]
fn each_unit_is_done_in_the_rest_or_left_out(rt: HostRuntime) -> Result<(), Fail> {
    for row in ROWS {
        if !holds_of_responses(rt.alloc(), BATCH, row.0, &Fates(row)) {
            return Err(Fail::new(row.1));
        }
    }
    Ok(())
}

//! Responses: what two readings of them find, and what a finished run answers.

ghost use Rattle.std.specs.Prelude.{◌≡◌, ℕ, List, true, false, length, IfSome, IsSome, IsTrue, OnOk};
ghost use Rattle.std.specs.List.{AllZip};
ghost use Rattle.serde_json.specs.View.{view};
ghost use Rattle.odb_check.specs.Plans.{plan_records};
ghost use Rattle.odb_doc.specs.Statuses.{is_status};
ghost use Rattle.odb_reply.specs.BodyTexts.{value_with};
ghost use Rattle.odb_reply.specs.Completed.{has_error};
ghost use Rattle.odb_reply.specs.Fits.{Fits, IsTableOf, ListsFit, places, statuses};
ghost use Rattle.odb_reply.specs.LeastMatchFault.{RefusesMatch};
ghost use Rattle.odb_reply.specs.MatchFaults as match_faults;
ghost use Rattle.odb_reply.specs.OnePerId.{HasOnePerId};
ghost use Rattle.odb_reply.specs.ResponseDocuments.{IsResponseDocument, RefusesResponses, ReadsAs, entries, responses_in};
ghost use Rattle.odb_reply.specs.ResponseDocuments as response_documents;
ghost use Rattle.odb_reply.specs.Responses.{labels_of, response_value, value_of};
ghost use Rattle.odb_reply.specs.StatusFaults.{status_at, status_row};
ghost use Rattle.odb_sched.specs.run.Answers.{answer, status_of};
ghost use Rattle.odb_sched.specs.run.Possible.{HasRun};
ghost use Rattle.odb_sched.specs.run.PossibleLive.{HasLiveRun};
ghost use Rattle.odb_sched.specs.run.State.{size};
ghost use Rattle.odb_sched.specs.run.Steps.{is_finished};
ghost use Rattle.odb_testing.specs.Readings.{IsReading, IsSame};

use odb_check::Plan;
use odb_check::laws::every_plan;
use odb_reply::laws::{
    every_completion, every_labeled, every_response, every_texted, one_document, one_match,
    one_status,
};
use odb_reply::{
    JsonText, Labels, MatchFault, MatchRule, ResponseFault, Responses, StatusFault, Strictness,
    Table, check_statuses, match_responses,
};
use odb_sched::laws::{every_possible, every_possible_live};
use odb_sched::{Done, Mode, OwnedRun};
use odb_testing::Two;
use serde_json::Value;
use std::alloc::Global;

/// Reads responses, unless memory runs out.
fn responses_of<'a>(alloc: Global, value: &'a Value) -> Option<Result<Responses<'a>, ResponseFault>>
    ensures { IfSome result (IsReading
        (λ found. IsResponseDocument (view value.now)
        × AllZip ReadsAs (responses_in (view value.now)) (entries found))
        (λ fault. IsSome (response_documents.responses_row fault) × RefusesResponses fault (view value.now))) }
{
    match Responses::read(alloc, value) {
        Ok(found) => Some(Ok(found)),
        Err(ResponseFault::OutOfMemory) => None,
        Err(fault) => Some(Err(fault)),
    }
}

/// Reads responses twice.
fn responses_twice<'a>(alloc: Global, value: &'a Value) -> Two<Result<Responses<'a>, ResponseFault>>
    ensures { IfSome result.0 (λ one. IfSome result.1 (IsSame entries one)) }
{
    one_document();
    (responses_of(alloc, value), responses_of(alloc, value))
}

/// Matches responses with a batch, unless memory runs out.
fn matched(
    alloc: Global,
    plan: &Plan<'_>,
    responses: &Responses<'_>,
) -> Option<Result<Table, MatchFault>>
    ensures { IfSome result (IsReading
        (λ table. Fits (plan_records plan.now) (entries responses.now)
        × IsTableOf (plan_records plan.now) (entries responses.now) (places table) (statuses table))
        (λ fault. IsSome (match_faults.match_row fault)
        × RefusesMatch fault (plan_records plan.now) (entries responses.now))) }
{
    match match_responses(alloc, plan, responses) {
        Ok(table) => Some(Ok(table)),
        Err(MatchFault::OutOfMemory) => None,
        Err(fault) => Some(Err(fault)),
    }
}

/// Matches responses with a batch twice.
fn matched_twice(
    alloc: Global,
    plan: &Plan<'_>,
    responses: &Responses<'_>,
) -> Two<Result<Table, MatchFault>>
    ensures { IfSome result.0 (λ one. IfSome result.1 (IsSame {Y = List ℕ × List ℕ}
        (λ table. (places table, statuses table)) one)) }
{
    one_match();
    (
        matched(alloc, plan, responses),
        matched(alloc, plan, responses),
    )
}

/// Returns whether a match finds that a request has no response, once the responses are completed. Each has one if one of
/// them is an error.
fn lacks_one<'a>(alloc: Global, plan: &Plan<'a>, responses: Responses<'a>) -> bool
    ensures { has_error (entries responses.entry) ≡ true → result ≡ false }
{
    every_completion();
    let Ok(all) = responses.completed(alloc, plan) else {
        return false;
    };
    matches!(
        match_responses(alloc, plan, &all),
        Err(MatchFault::Broken {
            rule: MatchRule::ResponseMissing,
            ..
        })
    )
}

/// Checks the statuses of a table, unless memory runs out. Some finished run in this mode answers those that pass.
fn answered_by_run(
    alloc: Global,
    plan: &Plan<'_>,
    table: &Table,
    mode: Mode,
) -> Option<Result<(), StatusFault>>
    requires { length (statuses table.now) ≡ length (plan_records plan.now) }
    ensures { IfSome result (λ found. OnOk found (HasRun plan.now mode (status_at (statuses table.now)))) }
{
    every_possible(plan);
    match check_statuses(alloc, plan, table, Strictness::Requests) {
        Err(StatusFault::OutOfMemory) => None,
        found => Some(found),
    }
}

/// Checks the statuses of a table by units, unless memory runs out. Some finished live run in this mode answers those that
/// pass.
fn answered_by_live_run(
    alloc: Global,
    plan: &Plan<'_>,
    table: &Table,
    mode: Mode,
) -> Option<Result<(), StatusFault>>
    requires { length (statuses table.now) ≡ length (plan_records plan.now) }
    ensures { IfSome result (λ found. OnOk found (HasLiveRun (plan_records plan.now) mode
        (status_at (statuses table.now)))) }
{
    every_plan(plan);
    every_possible_live();
    match check_statuses(alloc, plan, table, Strictness::Units) {
        Err(StatusFault::OutOfMemory) => None,
        found => Some(found),
    }
}

/// Checks the statuses of a table twice, and returns both faults.
fn refused_twice(
    alloc: Global,
    plan: &Plan<'_>,
    table: &Table,
    strictness: Strictness,
) -> Option<(StatusFault, StatusFault)>
    requires { length (statuses table.now) ≡ length (plan_records plan.now) }
    ensures { IfSome result (λ both. IsSome (status_row both.0) → IsSome (status_row both.1)
        → both.0 ≡ both.1) }
{
    one_status();
    let Err(fault) = check_statuses(alloc, plan, table, strictness) else {
        return None;
    };
    let Err(other) = check_statuses(alloc, plan, table, strictness) else {
        return None;
    };
    Some((fault, other))
}

/// Returns how many requests a finished run has. What it answers is a response document that fits the
/// batch, with one response for each id.
fn answered(done: &Done<'_>) -> u32
    ensures document { IsResponseDocument (response_value done.now) }
    ensures fits { ListsFit done.now.requests (response_value done.now) }
    ensures one_per_id { HasOnePerId done.now.requests (response_value done.now) }
{
    every_response(done);
    done.plan().len()
}

/// Returns how many requests a finished run has. What it answers by these ids and groups is a response
/// document.
fn labeled<L: Labels>(labels: &L, run: &OwnedRun) -> u32
    requires labels { length (L.labels labels.now) ≡ size run.now }
    requires finished { is_finished run.now ≡ true }
    ensures { IsResponseDocument (value_of (L.labels labels.now) (answer run.now)) }
{
    every_labeled(labels, run);
    run.len()
}

/// Returns how many requests a finished run has, of which some reported their bodies as these texts. What it answers is a
/// response document that fits the batch, with one response for each id.
fn texted(done: &Done<'_>, texts: &[Option<JsonText>]) -> u32
    ensures document { IsResponseDocument
        (value_with (labels_of done.now.requests) texts.now (answer done.now)) }
    ensures fits { ListsFit done.now.requests
        (value_with (labels_of done.now.requests) texts.now (answer done.now)) }
    ensures one_per_id { HasOnePerId done.now.requests
        (value_with (labels_of done.now.requests) texts.now (answer done.now)) }
    ensures statuses { (i : ℕ) → IsTrue (is_status (status_of (answer done.now i))) }
{
    every_plan(done.plan());
    every_texted(done.plan(), texts, done.run());
    done.plan().len()
}

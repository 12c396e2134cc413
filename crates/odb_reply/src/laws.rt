//! What is true of the response of every finished run, and of every response document of a service
//! (OData JSON Format 4.01, section 19.5).
//!
//! The laws are clauses of functions that change nothing.

ghost use Rattle.std.specs.Prelude.{◌≡◌, ◌↔◌, ◌++◌, ◌<◌, ℕ, true, List, Some, IsSome, IsTrue, codes, length};
ghost use Rattle.std.specs.List.{AllZip};
ghost use Rattle.serde_json.specs.Data.{Data};
ghost use Rattle.serde_json.specs.Read.{read};
ghost use Rattle.odb_doc.specs.batch.Records.{Record};
ghost use Rattle.odb_check.specs.Laws.{HasPositions};
ghost use Rattle.odb_check.specs.PlanGraph.{IsPlanGraphOf, PlanGraph};
ghost use Rattle.odb_doc.specs.Statuses.{is_status};
ghost use Rattle.odb_sched.specs.run.Answers.{answer, status_of};
ghost use Rattle.odb_sched.specs.run.State.{size};
ghost use Rattle.odb_sched.specs.run.Steps.{is_finished};
ghost use Rattle.odb_reply.specs.MatchFaults.{MatchFault};
ghost use Rattle.odb_reply.specs.declared.response_fault.ResponseFault.{ResponseFault};
ghost use Rattle.odb_reply.specs.declared.match_fault.MatchRule.TheVariants.{ResponseMissing};
ghost use Rattle.odb_reply.specs.Completed.{completed, has_error};
ghost use Rattle.odb_reply.specs.BodyTexts.{value_with};
ghost use Rattle.odb_reply.specs.Fits.{Fits, IsTableOf, ListsFit};
ghost use Rattle.odb_reply.specs.LeastMatchFault.{HasNoMisfit, RefusesMatch};
ghost use Rattle.odb_reply.specs.StatusFaults.{StatusFault};
ghost use Rattle.odb_reply.specs.declared.strictness.Strictness.{Strictness};
ghost use Rattle.odb_reply.specs.MatchFaults as match_faults;
ghost use Rattle.odb_reply.specs.MatchFaults.{Breaks};
ghost use Rattle.odb_reply.specs.ResponseDocuments.{Entry, IsResponseDocument, RefusesResponses, ReadsAs, responses_in};
ghost use Rattle.odb_reply.specs.ResponseDocuments as response_documents;
ghost use Rattle.odb_reply.specs.OnePerId.{HasOnePerId};
ghost use Rattle.odb_reply.specs.StatusFaults as status_faults;
ghost use Rattle.odb_reply.specs.StatusFaults.{IsPossibleBy, RefusesStatuses, status_at};
ghost use Rattle.odb_reply.specs.Readable.{AnswersBy, IsReadable};
ghost use Rattle.odb_reply.specs.Responses.{labels_of, response_text, response_value, text_of, value_of};

use crate::json_text::JsonText;
use crate::labels::Labels;
use odb_sched::{Done, OwnedRun};

/// A response document has one first fault at most, none if it is good, and one list of responses.
pub fn one_document()
    ensures one { (value : Data) (fault other : ResponseFault) → IsSome (response_documents.responses_row fault)
        → IsSome (response_documents.responses_row other) → RefusesResponses fault value → RefusesResponses other value
        → fault ≡ other }
    ensures none { (value : Data) (fault : ResponseFault) → IsSome (response_documents.responses_row fault)
        → RefusesResponses fault value → ¬ IsResponseDocument value }
    ensures entries { (elements : List Data) (entries others : List Entry)
        → AllZip ReadsAs elements entries → AllZip ReadsAs elements others → entries ≡ others }
{}

/// Responses fit a batch if and only if they break none of the rules F71 to F75. Those that fit have
/// one table, and the others one first fault at most.
pub fn one_match()
    ensures fits { (requests : List Record) (responses : List Entry)
        → Fits requests responses ↔ HasNoMisfit requests responses }
    ensures one { (requests : List Record) (responses : List Entry) (fault other : MatchFault)
        → IsSome (match_faults.match_row fault) → IsSome (match_faults.match_row other)
        → RefusesMatch fault requests responses → RefusesMatch other requests responses
        → fault ≡ other }
    ensures none { (requests : List Record) (responses : List Entry) (fault : MatchFault)
        → IsSome (match_faults.match_row fault) → RefusesMatch fault requests responses
        → ¬ Fits requests responses }
    ensures table { (requests : List Record) (responses : List Entry)
        (places others statuses different : List ℕ) → Fits requests responses
        → IsTableOf requests responses places statuses
        → IsTableOf requests responses others different
        → (places ≡ others) × (statuses ≡ different) }
{}

/// Statuses have one first fault of F76 to F78 at most, and none if some finished run answers them.
pub fn one_status()
    ensures one { (by : Strictness) (plan : PlanGraph) (statuses : ℕ → ℕ) (fault other : StatusFault)
        → IsSome (status_faults.status_row fault) → IsSome (status_faults.status_row other)
        → RefusesStatuses fault by plan statuses → RefusesStatuses other by plan statuses
        → fault ≡ other }
    ensures none { (by : Strictness) (plan : PlanGraph) (statuses : ℕ → ℕ) (fault : StatusFault)
        → IsSome (status_faults.status_row fault) → RefusesStatuses fault by plan statuses
        → ¬ IsPossibleBy by plan statuses }
{}

/// What is true of responses that are completed, as [`crate::Responses::completed`] does it: if one of them is an
/// error, each request of the batch has one afterwards, so F73 does not apply. They are unchanged if each request
/// has one already.
pub fn every_completion()
    ensures none_missing { (requests : List Record) (responses : List Entry) → has_error responses ≡ true
        → (i : ℕ) → ¬ Breaks requests (completed requests responses) ResponseMissing i }
    ensures unchanged { (requests : List Record) (responses : List Entry)
        → ((i : ℕ) → ¬ Breaks requests responses ResponseMissing i)
        → completed requests responses ≡ responses }
{}

/// What is true of the response to a finished run by these ids and groups.
///
/// For each batch that has them: each id of the batch is the id of exactly one response, and no
/// response has another id. The responses fit the batch, as [`crate::match_responses`] checks those of
/// a service, if the units and dependencies of the run are those of the batch: each has the group of
/// its request, and none is a success if a dependency of its request is not. The response is a response
/// document, as [`crate::Responses::read`] accepts it. If each answer can be read again, `serde_json`
/// reads the text of the response as the response, also with a newline at its end.
pub fn every_labeled<L: Labels>(labels: &L, run: &OwnedRun)
    requires labels { length (L.labels labels.now) ≡ size run.now }
    requires finished { is_finished run.now ≡ true }
    ensures one_per_id { (batch : List Record) → labels_of batch ≡ L.labels labels.now
        → HasPositions batch → HasOnePerId batch (value_of (L.labels labels.now) (answer run.now)) }
    ensures fits { (batch : List Record) → labels_of batch ≡ L.labels labels.now
        → HasPositions batch → IsPlanGraphOf batch run.now.plan_graph
        → ListsFit batch (value_of (L.labels labels.now) (answer run.now)) }
    ensures document { IsResponseDocument (value_of (L.labels labels.now) (answer run.now)) }
    ensures reads_back { AnswersBy IsReadable run.now
        → read (text_of (L.labels labels.now) (answer run.now))
        ≡ Some (value_of (L.labels labels.now) (answer run.now)) }
    ensures line { AnswersBy IsReadable run.now
        → read (text_of (L.labels labels.now) (answer run.now) ++ codes "\n")
        ≡ Some (value_of (L.labels labels.now) (answer run.now)) }
{
    run.laws();
    odb_doc::laws::every_value();
    let _labels = labels;
}

/// What is true of the response to a finished run by these ids and groups, of which some bodies were
/// reported as text: as [`every_labeled`] states it. Each text stands for the value that it is read as.
pub fn every_texted<L: Labels>(labels: &L, texts: &[Option<JsonText>], run: &OwnedRun)
    requires labels { length (L.labels labels.now) ≡ size run.now }
    requires finished { is_finished run.now ≡ true }
    ensures one_per_id { (batch : List Record) → labels_of batch ≡ L.labels labels.now
        → HasPositions batch
        → HasOnePerId batch (value_with (L.labels labels.now) texts.now (answer run.now)) }
    ensures fits { (batch : List Record) → labels_of batch ≡ L.labels labels.now
        → HasPositions batch → IsPlanGraphOf batch run.now.plan_graph
        → ListsFit batch (value_with (L.labels labels.now) texts.now (answer run.now)) }
    ensures document { IsResponseDocument
        (value_with (L.labels labels.now) texts.now (answer run.now)) }
    ensures statuses { (i : ℕ) → IsTrue (is_status (status_of (answer run.now i))) }
{
    run.laws();
    let _labels = labels;
    let _texts = texts;
}

/// What is true of the response to a finished run of a plan, as [`every_labeled`] states it by the ids
/// and groups of the plan. Its statuses are those of the answers (`table`).
pub fn every_response(done: &Done<'_>)
    ensures one_per_id { HasOnePerId done.now.requests (response_value done.now) }
    ensures fits { ListsFit done.now.requests (response_value done.now) }
    ensures table { (entries : List Entry) (places statuses : List ℕ)
        → AllZip ReadsAs (responses_in (response_value done.now)) entries
        → IsTableOf done.now.requests entries places statuses → (i : ℕ) → i < size done.now
        → status_of (answer done.now i) ≡ status_at statuses i }
    ensures document { IsResponseDocument (response_value done.now) }
    ensures reads_back { AnswersBy IsReadable done.now
        → read (response_text done.now) ≡ Some (response_value done.now) }
    ensures line { AnswersBy IsReadable done.now
        → read (response_text done.now ++ codes "\n") ≡ Some (response_value done.now) }
{
    odb_check::laws::every_plan(done.plan());
    every_labeled(done.plan(), done.run());
}

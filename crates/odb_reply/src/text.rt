//! The text of the response of a finished run.

ghost use Rattle.std.specs.Prelude.{◌≡◌, ◌↔◌, ◌++◌, ℕ, List, Some, true, codes, length, string_bytes, IfOk, OnOk};
ghost use Rattle.serde_json.specs.Read.{read};
ghost use Rattle.odb_doc.specs.batch.Records.{Record};
ghost use Rattle.odb_doc.specs.declared.fault.TextFault.TheVariants as faults;
ghost use Rattle.odb_check.specs.Laws.{HasPositions};
ghost use Rattle.odb_check.specs.PlanGraph.{IsPlanGraphOf};
ghost use Rattle.odb_sched.specs.run.Answers.{answer};
ghost use Rattle.odb_sched.specs.run.State.{size};
ghost use Rattle.odb_sched.specs.run.Steps.{is_finished};
ghost use Rattle.odb_reply.specs.BodyTexts.{HasNoText, text_with, value_with};
ghost use Rattle.odb_reply.specs.Fits.{ListsFit};
ghost use Rattle.odb_reply.specs.NotWhole.{HasWholeBodies, HasWholeValues, IsFirstNotWhole, IsFirstNotWholeValue};
ghost use Rattle.odb_reply.specs.OnePerId.{HasOnePerId};
ghost use Rattle.odb_reply.specs.Readable.{HasShallowBodies, HasShallowValues};
ghost use Rattle.odb_reply.specs.ResponseDocuments.{IsResponseDocument};
ghost use Rattle.odb_reply.specs.Responses as responses;

use crate::json_text::JsonText;
use crate::labels::Labels;
use crate::laws::{every_response, every_texted};
use crate::parts::push_response;
use crate::whole::first_not_whole;
use odb_doc::TextFault;
use odb_sched::{Done, OwnedRun};
use std::alloc::{AllocError, Global};

/// The capacity for each response: enough for an answer with a header and a short body.
const RESPONSE_BYTES: usize = 128;

/// Appends the text of a response whose bodies hold only whole numbers where they are values.
fn push_whole<L: Labels>(
    alloc: Global,
    text: &mut String,
    labels: &L,
    texts: &[Option<JsonText>],
    run: &OwnedRun,
) -> Result<(), AllocError>
    requires labels { length (L.labels labels.now) ≡ size run.now }
    requires finished { is_finished run.now ≡ true }
    requires whole { HasWholeValues texts.now run.now }
    ensures { OnOk result (string_bytes text.new ≡ string_bytes text.old
        ++ text_with (L.labels labels.now) texts.now (answer run.now)) }
{
    let count = run.len();
    text.reserve(RESPONSE_BYTES * (count as usize))?;
    text.push_str("{\"responses\":[")?;
    for i in 0..count {
        push_response(alloc, text, labels, texts, run, i)?;
    }
    text.push_str("]}")
}

/// Returns the text of the response to a batch whose requests have these ids and groups, and whose run
/// has finished (OData JSON Format 4.01, section 19.5): compact JSON, with one response per request in
/// the order of the requests. It needs nothing else of the batch, so that a caller may keep a run
/// without its document and plan.
///
/// `texts` has, by position, the bodies that were reported as text beside their outcomes, and need not
/// reach the last position: `&[]` if there are none. Such a body is copied byte for byte, in place of
/// that of the outcome. A request that is answered 424 has no body.
///
/// There must be as many labels as requests of the run. Allocates the text, and the text of one body
/// that is a value or of one header at a time. Takes O(n) for a text of n bytes.
///
/// If no body that is a value nests more than 124 deep, `serde_json` reads the text as the response, also
/// with a newline at its end; in it each body that was reported as text is the value of the text.
/// [`crate::Responses::read`] accepts the response, and it fits every batch that has these labels and the
/// units and dependencies of the run.
///
/// Example: `has_text` in crates/odb_tests_text/src/replies.rt.
///
/// # Errors
///
/// `NotWhole` if and only if a body of the response that is a value holds a number that is not whole,
/// with the first such request; else `OutOfMemory` if an allocation fails.
pub fn response_of<L: Labels>(
    alloc: Global,
    labels: &L,
    texts: &[Option<JsonText>],
    run: &OwnedRun,
) -> Result<String, TextFault>
    requires labels { length (L.labels labels.now) ≡ size run.now }
    requires finished { is_finished run.now ≡ true }
    ensures text { IfOk result (λ text. string_bytes text
        ≡ text_with (L.labels labels.now) texts.now (answer run.now)) }
    ensures values { HasNoText texts.now → IfOk result (λ text. string_bytes text
        ≡ responses.text_of (L.labels labels.now) (answer run.now)) }
    ensures not_whole { (at : ℕ)
        → (result ≡ Err (faults.NotWhole at)) ↔ IsFirstNotWholeValue texts.now run.now at }
    ensures one_per_id { (batch : List Record) → responses.labels_of batch ≡ L.labels labels.now
        → HasPositions batch
        → HasOnePerId batch (value_with (L.labels labels.now) texts.now (answer run.now)) }
    ensures fits { (batch : List Record) → responses.labels_of batch ≡ L.labels labels.now
        → HasPositions batch → IsPlanGraphOf batch run.now.plan_graph
        → ListsFit batch (value_with (L.labels labels.now) texts.now (answer run.now)) }
    ensures document { IsResponseDocument
        (value_with (L.labels labels.now) texts.now (answer run.now)) }
    ensures reads_back { IfOk result (λ text. HasShallowValues texts.now run.now
        → read (string_bytes text)
        ≡ Some (value_with (L.labels labels.now) texts.now (answer run.now))) }
    ensures line { IfOk result (λ text. HasShallowValues texts.now run.now
        → read (string_bytes text ++ codes "\n")
        ≡ Some (value_with (L.labels labels.now) texts.now (answer run.now))) }
{
    every_texted(labels, texts, run);
    if let Some(at) = first_not_whole(texts, run) {
        return Err(TextFault::NotWhole { at: at as usize });
    }
    let mut text = String::new(alloc);
    push_whole(alloc, &mut text, labels, texts, run)?;
    Ok(text)
}

/// Returns the text of the response to a batch whose run has finished (OData JSON Format 4.01,
/// section 19.5): that of [`response_of`] for the ids and groups of the plan.
///
/// Example: `answer` in crates/odb_tests_engine/src/examples.rt.
///
/// # Errors
///
/// As those of [`response_of`].
pub fn response_text(alloc: Global, done: &Done<'_>) -> Result<String, TextFault>
    ensures text { IfOk result (λ text. string_bytes text ≡ responses.response_text done.now) }
    ensures not_whole { (at : ℕ) → (result ≡ Err (faults.NotWhole at)) ↔ IsFirstNotWhole done.now at }
    ensures one_per_id { HasOnePerId done.now.requests
        (responses.response_value done.now) }
    ensures fits { ListsFit done.now.requests (responses.response_value done.now) }
    ensures document { IsResponseDocument (responses.response_value done.now) }
    ensures reads_back { IfOk result (λ text. HasShallowBodies done.now
        → read (string_bytes text) ≡ Some (responses.response_value done.now)) }
{
    every_response(done);
    response_of(alloc, done.plan(), &[], done.run())
}

/// Appends the text of the response that [`response_text`] returns, of a run whose bodies are known to hold
/// only whole numbers: they are not looked at again.
///
/// # Errors
///
/// If an allocation fails. `text` may have received a part of the response.
pub fn push_whole_response(
    alloc: Global,
    text: &mut String,
    done: &Done<'_>,
) -> Result<(), AllocError>
    requires { HasWholeBodies done.now }
    ensures { OnOk result (string_bytes text.new
        ≡ string_bytes text.old ++ responses.response_text done.now) }
{
    push_whole(alloc, text, done.plan(), &[], done.run())
}

//! The text of one response.

ghost use Rattle.std.specs.Prelude.{◌≡◌, ◌<◌, ◌+◌, ◌++◌, codes, true, length, option_map, string_bytes, OnOk};
ghost use Rattle.odb_doc.specs.canonical.Canonical.{headers_value};
ghost use Rattle.odb_doc.specs.Texts.{member_part};
ghost use Rattle.odb_sched.specs.run.Answers.{answer, shown};
ghost use Rattle.odb_sched.specs.run.State.{size};
ghost use Rattle.odb_sched.specs.run.Steps.{is_finished};
ghost use Rattle.odb_reply.specs.BodyTexts as body_texts;
ghost use Rattle.odb_reply.specs.NotWhole.{HasWholeValue, HasWholeValues};
ghost use Rattle.odb_reply.specs.Parts.{rest_text};
ghost use Rattle.odb_reply.specs.Responses as responses;

use crate::json_text::{JsonText, text_at};
use crate::labels::Labels;
use odb_doc::text::{push_body, push_group, push_headers, push_open, push_quoted};
use odb_sched::{Answer, OwnedRun};
use std::alloc::{AllocError, Global};
use std::fmt::Write;

/// Appends the member `body` with this text.
fn push_body_text(text: &mut String, body: &str) -> Result<(), AllocError>
    ensures { OnOk result (string_bytes text.new ≡ string_bytes text.old
        ++ (codes "\"body\":" ++ (body.now ++ codes ","))) }
{
    text.push_str("\"body\":")?;
    text.push_str(body)?;
    text.push_str(",")
}

/// Appends the member `body` of an answer, if it has a body: the text that was reported, or else that of
/// the value.
fn push_answer_body(
    alloc: Global,
    text: &mut String,
    answer: &Answer<'_>,
    reported: Option<&str>,
) -> Result<(), AllocError>
    requires { HasWholeValue (shown answer.now) (option_map (λ body. body.now) reported) }
    ensures { OnOk result (string_bytes text.new ≡ string_bytes text.old
        ++ body_texts.body_part (shown answer.now) (option_map (λ body. body.now) reported.entry)) }
{
    match (answer, reported) {
        (Answer::Reported(_), Some(body)) => push_body_text(text, body),
        (Answer::Reported(outcome), None) => push_body(alloc, text, outcome.body()),
        (Answer::FailedDependency, _) => Ok(()),
    }
}

/// Appends the member `headers` of an answer, if it has headers.
fn push_answer_headers(
    alloc: Global,
    text: &mut String,
    answer: &Answer<'_>,
) -> Result<(), AllocError>
    ensures { OnOk result (string_bytes text.new ≡ string_bytes text.old
        ++ member_part (codes "\"headers\":")
        (headers_value (responses.answer_headers (shown answer.now)))) }
{
    match answer {
        Answer::Reported(outcome) => match outcome.headers() {
            Some(headers) => push_headers(alloc, text, headers),
            None => Ok(()),
        },
        Answer::FailedDependency => Ok(()),
    }
}

/// Appends the members `id` and `status`, and the end of the response.
fn push_end(alloc: Global, text: &mut String, id: &str, status: u16) -> Result<(), AllocError>
    ensures { OnOk result (string_bytes text.new ≡ string_bytes text.old
        ++ body_texts.end_part id.now status) }
{
    text.push_str("\"id\":")?;
    push_quoted(alloc, text, id)?;
    write!(text, ",\"status\":{status}}}").map_err(|_| AllocError)
}

/// Appends the response to request `i`, with a comma first unless it is the first response.
pub(crate) fn push_response<L: Labels>(
    alloc: Global,
    text: &mut String,
    labels: &L,
    texts: &[Option<JsonText>],
    run: &OwnedRun,
    i: u32,
) -> Result<(), AllocError>
    requires labels { length (L.labels labels.now) ≡ size run.now }
    requires finished { is_finished run.now ≡ true }
    requires request { i < size run.now }
    requires whole { HasWholeValues texts.now run.now }
    ensures { OnOk result
        (string_bytes text.old ++ rest_text (L.labels labels.now) texts.now (answer run.now) i
        ≡ string_bytes text.new
        ++ rest_text (L.labels labels.now) texts.now (answer run.now) (i + 1)) }
{
    let label = labels.label(i);
    let answer = run.answer(i);
    push_open(text, i > 0)?;
    push_group(alloc, text, label.group)?;
    push_answer_body(alloc, text, &answer, text_at(texts, i))?;
    push_answer_headers(alloc, text, &answer)?;
    push_end(alloc, text, label.id, answer.status())
}

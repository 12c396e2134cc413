//! The parts of batches, with ample memory: which requests may be sent together, and their text.

ghost use Rattle.std.specs.Prelude.{◌≡◌, length};
ghost use Rattle.serde_json.specs.View.{view};
ghost use Rattle.odb_check.specs.Plans.{plan_records};
ghost use Rattle.odb_send.specs.Parts.{IsBatchIn};

use crate::documents::{OnBatch, holds_of};
use odb_check::Plan;
use odb_sched::RequestState;
use odb_send::{Recorded, part_of, rest_text};
use serde_json::Value;
use std::alloc::{AllocError, Global};
use std::rt::HostRuntime;
use std::test::Fail;

/// A batch, and what has become of each request: `s` if it has succeeded, `w` if it may not start yet, `r` if it may, `x` if it
/// is running, `f` if it has failed, `-` if it never starts; how many requests a part may have; what the answer to
/// each request records; and the next part, or none if its first unit lacks a Location or an ETag.
type Row = (
    &'static str,
    &'static str,
    u32,
    &'static [Pair],
    Option<&'static str>,
);

/// The Location and the ETag of an answer.
pub type Pair = (Option<&'static str>, Option<&'static str>);

/// An answer without these headers.
pub const NONE: Pair = (None, None);

/// `b` needs `a`, `c` nothing, and `d` both.
pub const DIAMOND: &str =
    r#"{"requests":[{"id":"a","method":"get","url":"A"},{"id":"b","method":"get","url":"B","dependsOn":["a"]},
    {"id":"c","method":"get","url":"C"},{"id":"d","method":"get","url":"D","dependsOn":["b","c"]}]}"#;

/// A group of two after one request, and one request after it.
pub const GROUP: &str =
    r#"{"requests":[{"id":"a","method":"get","url":"A"},{"id":"b","atomicityGroup":"g","method":"post","url":"B","body": 9.990},
    {"id":"c","atomicityGroup":"g","method":"get","url":"$b/C","dependsOn":["b"]},{"id":"d","method":"get","url":"D"}]}"#;

/// `b` and the group of `d` and `e` refer to `a`, and `c` and `f` to nothing.
const LACKING: &str =
    r#"{"requests":[{"id":"a","method":"post","url":"A"},{"id":"c","method":"get","url":"C"},{"id":"b","method":"get","url":"$a","dependsOn":["a"]},
    {"id":"d","atomicityGroup":"g","method":"get","url":"D"},{"id":"e","atomicityGroup":"g","method":"get","url":"$a/E","dependsOn":["a"]},
    {"id":"f","method":"get","url":"F"}]}"#;

/// `b` refers to `a`.
const REFERENCE: &str =
    r#"{"requests":[{"id":"a","method":"post","url":"A","body":{}},{"id":"b","method":"get","url":"$a/B","dependsOn":["a"]}]}"#;

/// `b` and `c` refer to the ETag of `a`, and `c` to that of `b`.
const CONDITIONS: &str = r#"{"requests":[{"id":"a","method":"post","url":"A"},
    {"id":"b","method":"patch","url":"B","dependsOn":["a"],"headers":{"If-Match":"$a","If-None-Match":"a"}},
    {"id":"c","method":"get","url":"C","dependsOn":["a","b"],"headers":{"X-A":"$a","If-Match":"$b","IF-NONE-MATCH":"$a"}}]}"#;

const ROWS: &[Row] = &[
    // As many as fit, in the order of the batch; then what is left, without what is done.
    (
        DIAMOND,
        "rwrw",
        3,
        &[NONE, NONE, NONE, NONE],
        Some(
            r#"{"requests":[{"id":"a","method":"get","url":"A"},{"dependsOn":["a"],"id":"b","method":"get","url":"B"},{"id":"c","method":"get","url":"C"}]}"#,
        ),
    ),
    (
        DIAMOND,
        "sssr",
        3,
        &[NONE, NONE, NONE, NONE],
        Some(r#"{"requests":[{"id":"d","method":"get","url":"D"}]}"#),
    ),
    // What needs something that has failed, or that is out, has to wait; the others do not.
    (
        DIAMOND,
        "xwrw",
        4,
        &[NONE, NONE, NONE, NONE],
        Some(r#"{"requests":[{"id":"c","method":"get","url":"C"}]}"#),
    ),
    (
        DIAMOND,
        "sfr-",
        4,
        &[NONE, NONE, NONE, NONE],
        Some(r#"{"requests":[{"id":"c","method":"get","url":"C"}]}"#),
    ),
    // Nothing is left.
    (
        DIAMOND,
        "ssss",
        4,
        &[NONE, NONE, NONE, NONE],
        Some(r#"{"requests":[]}"#),
    ),
    // A group is not cut: the part ends before it, also if a later request would fit.
    (
        GROUP,
        "rrwr",
        2,
        &[NONE, NONE, NONE, NONE],
        Some(r#"{"requests":[{"id":"a","method":"get","url":"A"}]}"#),
    ),
    // A body stays as it was written, and a reference within the part stays.
    (
        GROUP,
        "srwr",
        2,
        &[NONE, NONE, NONE, NONE],
        Some(
            r#"{"requests":[{"atomicityGroup":"g","body":9.990,"id":"b","method":"post","url":"B"},{"atomicityGroup":"g","dependsOn":["b"],"id":"c","method":"get","url":"$b/C"}]}"#,
        ),
    ),
    // A group that has begun is not sent again.
    (
        GROUP,
        "ssxr",
        4,
        &[NONE, NONE, NONE, NONE],
        Some(r#"{"requests":[{"id":"d","method":"get","url":"D"}]}"#),
    ),
    // A group that is longer than the limit is in no part.
    (
        GROUP,
        "srwr",
        1,
        &[NONE, NONE, NONE, NONE],
        Some(r#"{"requests":[]}"#),
    ),
    // A reference to what is done becomes its Location.
    (
        REFERENCE,
        "sr",
        1,
        &[(Some("/s/A(1)"), None), NONE],
        Some(r#"{"requests":[{"id":"b","method":"get","url":"/s/A(1)/B"}]}"#),
    ),
    (REFERENCE, "sr", 1, &[NONE, NONE], None),
    (REFERENCE, "sr", 1, &[(Some("$c"), None), NONE], None),
    (REFERENCE, "sr", 1, &[(Some(""), None), NONE], None),
    // A condition that refers to what is done gets its ETag. One that refers within the part stays, as other values do.
    (
        CONDITIONS,
        "srr",
        3,
        &[(None, Some("\"1\"")), NONE, NONE],
        Some(
            r#"{"requests":[{"headers":{"if-match":"\"1\"","if-none-match":"a"},"id":"b","method":"patch","url":"B"},{"dependsOn":["b"],"headers":{"if-match":"$b","if-none-match":"\"1\"","x-a":"$a"},"id":"c","method":"get","url":"C"}]}"#,
        ),
    ),
    (
        CONDITIONS,
        "ssr",
        3,
        &[(None, Some("")), (None, Some("$a")), NONE],
        Some(
            r#"{"requests":[{"headers":{"if-match":"$a","if-none-match":"","x-a":"$a"},"id":"c","method":"get","url":"C"}]}"#,
        ),
    ),
    // The part ends before a unit that lacks an ETag.
    (CONDITIONS, "srr", 3, &[NONE, NONE, NONE], None),
    (
        CONDITIONS,
        "sxr",
        3,
        &[(None, Some("7")), NONE, NONE],
        Some(r#"{"requests":[]}"#),
    ),
    // A part ends before a unit that lacks a Location. If that is the first, there is none, whatever comes after it.
    (
        LACKING,
        "srrrrr",
        6,
        &[NONE, NONE, NONE, NONE, NONE, NONE],
        Some(r#"{"requests":[{"id":"c","method":"get","url":"C"}]}"#),
    ),
    (
        LACKING,
        "ssrrrr",
        6,
        &[NONE, NONE, NONE, NONE, NONE, NONE],
        None,
    ),
    (
        LACKING,
        "ssfrrr",
        6,
        &[NONE, NONE, NONE, NONE, NONE, NONE],
        None,
    ),
    (
        LACKING,
        "ssfffr",
        6,
        &[NONE, NONE, NONE, NONE, NONE, NONE],
        Some(r#"{"requests":[{"id":"f","method":"get","url":"F"}]}"#),
    ),
    // A reference within a part lacks nothing.
    (
        LACKING,
        "rrrwww",
        3,
        &[NONE, NONE, NONE, NONE, NONE, NONE],
        Some(
            r#"{"requests":[{"id":"a","method":"post","url":"A"},{"id":"c","method":"get","url":"C"},{"dependsOn":["a"],"id":"b","method":"get","url":"$a"}]}"#,
        ),
    ),
];

/// Returns the state that a letter stands for.
fn state_of(letter: u8) -> RequestState {
    match letter {
        b's' => RequestState::Reported(204),
        b'f' => RequestState::Reported(404),
        b'w' => RequestState::Waiting,
        b'r' => RequestState::Ready,
        b'x' => RequestState::Running,
        _ => RequestState::Skipped,
    }
}

/// Returns the states that letters stand for.
fn states_of(alloc: Global, letters: &str) -> Result<Vec<RequestState>, AllocError> {
    let mut states = Vec::with_capacity(alloc, letters.len())?;
    for letter in letters.as_bytes() {
        states.push(state_of(*letter))?;
    }
    Ok(states)
}

/// Returns what answers record.
fn answers_of(alloc: Global, pairs: &[Pair]) -> Result<Vec<Recorded<'static>>, AllocError> {
    let mut answers = Vec::with_capacity(alloc, pairs.len())?;
    for pair in pairs {
        answers.push(Recorded {
            location: pair.0,
            etag: pair.1,
        })?;
    }
    Ok(answers)
}

/// The states of requests, and what their answers record.
type Moment = (Vec<RequestState>, Vec<Recorded<'static>>);

/// Returns the states that letters stand for, and what answers record.
pub fn moment_of(alloc: Global, letters: &str, pairs: &[Pair]) -> Result<Moment, AllocError> {
    let states = states_of(alloc, letters)?;
    let answers = answers_of(alloc, pairs)?;
    Ok((states, answers))
}

/// Returns the text of the next part of a batch.
fn text_of_part(
    alloc: Global,
    document: &[u8],
    value: &Value,
    plan: &Plan<'_>,
    states: &[RequestState],
    limit: u32,
    answers: &[Recorded<'_>],
) -> Option<String>
    requires document { IsBatchIn document.now (view value.now) (plan_records plan.now) }
    requires states { length states.now ≡ length (plan_records plan.now) }
    requires answers { length answers.now ≡ length (plan_records plan.now) }
{
    let _value = value;
    let part = part_of(alloc, plan, states, limit, answers).ok()?;
    rest_text(alloc, document, plan, &part).ok()
}

/// The next part of the batch of a row.
#[derive(Drop)]
struct NextPart<'a>(&'a Row);

impl NextPart<'_> {
    /// Whether its text is that of the row.
    fn has_text(
        &self,
        alloc: Global,
        document: &[u8],
        value: &Value,
        plan: &Plan<'_>,
        states: &[RequestState],
        answers: &[Recorded<'_>],
    ) -> bool
        requires document { IsBatchIn document.now (view value.now) (plan_records plan.now) }
    {
        let (_, _, limit, _, wanted) = *self.0;
        if states.len() != plan.len() as usize || answers.len() != plan.len() as usize {
            return false;
        }
        text_of_part(alloc, document, value, plan, states, limit, answers).as_deref() == wanted
    }
}

impl OnBatch for NextPart<'_> {
    fn holds(&self, alloc: Global, document: &[u8], value: &Value, plan: &Plan<'_>) -> bool {
        match moment_of(alloc, self.0.1, self.0.3) {
            Ok((states, answers)) => self.has_text(alloc, document, value, plan, &states, &answers),
            Err(_) => false,
        }
    }
}

#[test]
fn makes_each_part(rt: HostRuntime) -> Result<(), Fail> {
    for row in ROWS {
        if !holds_of(rt.alloc(), row.0, &NextPart(row)) {
            return Err(Fail::new(row.0));
        }
    }
    Ok(())
}

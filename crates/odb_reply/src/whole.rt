//! Whether the body of each response holds whole numbers alone, where it is a value.

ghost use Rattle.std.specs.Prelude.{◌≡◌, ◌↔◌, [], true, None, Some, option_map, IsTrue, IfSome};
ghost use Rattle.odb_doc.specs.declared.recorded.outcome.Outcome as values;
ghost use Rattle.odb_sched.specs.run.Answers.{shown};
ghost use Rattle.odb_sched.specs.run.Steps.{is_finished};
ghost use Rattle.odb_reply.specs.BodyTexts.{IsBody};
ghost use Rattle.odb_reply.specs.NotWhole.{HasWholeValue, HasWholeBodies, HasWholeValues, IsFirstNotWhole, IsFirstNotWholeValue};
ghost use Rattle.odb_doc.specs.recorded.OutcomeValues.{IsHeldOutcome};
ghost use Rattle.odb_reply.specs.Parts.{AreHeldBy, IsHeldBy};
ghost use Rattle.odb_reply.specs.Readable.{AnswersBy};

use crate::json_text::{JsonText, text_at};
use odb_doc::has_whole_body;
use odb_doc::laws::every_outcome;
use odb_sched::{Answer, Done, OwnedRun};

/// Returns whether each number in the body of an answer is whole, unless it was reported as text.
fn has_whole_value(answer: &Answer<'_>, reported: Option<&str>) -> bool
    requires { IfSome reported (λ body. IsBody body.now (Some body.now)) }
    ensures value { IsTrue result
        ↔ HasWholeValue (shown answer.now) (option_map (λ body. body.now) reported.entry) }
    ensures held { IsTrue result → (outcome : values.Outcome) → shown answer.now ≡ Some outcome
        → IsHeldBy outcome (option_map (λ body. body.now) reported.entry) }
{
    let Answer::Reported(outcome) = answer else {
        return true;
    };
    every_outcome(outcome);
    match reported {
        Some(_) => true,
        None => has_whole_body(outcome.body()),
    }
}

/// Returns the first request that is answered by a body that is a value with a number that is not whole.
pub(crate) fn first_not_whole(texts: &[Option<JsonText>], run: &OwnedRun) -> Option<u32>
    requires { is_finished run.now ≡ true }
    ensures first { IfSome result (IsFirstNotWholeValue texts.now run.now) }
    ensures none { result ≡ None → HasWholeValues texts.now run.now }
    ensures held { result ≡ None → AreHeldBy texts.now run.now }
{
    for i in 0..run.len() {
        if !has_whole_value(&run.answer(i), text_at(texts, i)) {
            return Some(i);
        }
    }
    None
}

/// Returns the first request of a finished run that is answered by a body with a number that is not
/// whole.
pub(crate) fn first_not_whole_of(done: &Done<'_>) -> Option<u32>
    ensures first { IfSome result (IsFirstNotWhole done.now) }
    ensures none { result ≡ None → HasWholeBodies done.now }
    ensures held { result ≡ None → AnswersBy IsHeldOutcome done.now }
{
    first_not_whole(&[], done.run())
}

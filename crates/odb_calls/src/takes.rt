//! How the answers to a part reach its run.

ghost use Rattle.std.specs.Prelude.{◌≡◌, ◌≢◌, List, IfErr, Ok, true, false};
ghost use Rattle.odb_live.specs.declared.run.replies.Reply.{Reply};
ghost use Rattle.odb_engine.specs.Halts.{Halted};
ghost use Rattle.odb_live.specs.Replies.{AreRepliesTo, TakesNone};
ghost use Rattle.odb_calls.specs.Follows.{FollowsAll, Tries};
ghost use Rattle.odb_calls.specs.Steps.{attempts};
ghost use Rattle.odb_calls.specs.Takes as takes;

use crate::answer::{give, wrong_option};
use crate::options::{mode_of, seed_of};
use crate::status::DONE;
use crate::steps::{Step, steps_of};
use crate::{live, units};
use odb_doc::Outcome;
use odb_engine::{Answer, Form, Halt};
use odb_live::LiveRun;
use odb_reply::JsonText;
use odb_sched::Mode;
use std::alloc::Global;

/// Tries a step. If it may not come, nothing has changed.
fn try_step(live: &mut LiveRun, step: Step)
    ensures { Tries live.old step live.new }
{
    match step {
        Step::StartUnit(i) => {
            let _status = units::start_unit(live, i);
        }
        Step::Start(i) => {
            let _status = live::start(live, i);
        }
        Step::Report(i, outcome, body) => {
            let _status = live::take_at(live, i, outcome, body);
        }
    }
}

/// Tries steps in their order.
fn follow(live: &mut LiveRun, steps: Vec<Step>)
    ensures { FollowsAll live.old steps.items live.new }
{
    for step in steps {
        try_step(live, step);
    }
}

/// Takes the answers to a part; returns whether it may be taken. Otherwise the run is as it was.
fn take_answers(
    live: &mut LiveRun,
    alloc: Global,
    part: &[u8],
    responses: &[u8],
    mode: Mode,
    seed: u64,
) -> Result<bool, Halt>
    ensures taken { result ≡ Ok true → (replies : List Reply) × AreRepliesTo live.old part.now responses.now mode replies
        × takes.Follows live.old live.new responses.now (attempts mode replies) }
    ensures other { result ≡ Ok false → TakesNone live.old part.now }
    ensures same { result ≢ Ok true → live.new ≡ live.old }
    ensures least { IfErr result (Halted (takes.IsLeastOfTake live.old part.now responses.now mode)) }
{
    let Some(replies) = live.replies(alloc, part, responses, mode, seed_of(seed))? else {
        return Ok(false);
    };
    let steps = steps_of(alloc, responses, &replies, mode)?;
    follow(live, steps);
    Ok(true)
}

/// Takes the answers to a part, by the mode that a number names.
pub fn take_part(
    live: &mut LiveRun,
    alloc: Global,
    part: &[u8],
    responses: &[u8],
    mode: u32,
    text: &mut [u8],
    text_length: &mut usize,
    seed: u64,
) -> u32
    ensures { takes.TakesPart live.old live.new part.now responses.now mode result text_length.new text.old text.new }
{
    let Some(mode) = mode_of(mode) else {
        return wrong_option(text_length);
    };
    match take_answers(live, alloc, part, responses, mode, seed) {
        Ok(true) => {
            *text_length = 0;
            DONE
        }
        Ok(false) => wrong_option(text_length),
        Err(halt) => give(Answer::of(alloc, Form::Lines, Err(halt)), text, text_length),
    }
}

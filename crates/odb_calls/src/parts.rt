//! How a part of a live run reaches the buffers of the caller.

ghost use Rattle.std.specs.Prelude.{◌≡◌, ◌≢◌, ◌<◌, All, string_bytes};
ghost use Rattle.odb_live.specs.LiveParts.{with_part};
ghost use Rattle.odb_sched.specs.run.State.{size};
ghost use Rattle.odb_calls.specs.Lists.{Gives};
ghost use Rattle.odb_calls.specs.Parts.{GivesPart};

use crate::answer::{give, wrong_option};
use crate::buffer::give_list;
use crate::options::seed_of;
use crate::status::DONE;
use odb_engine::{Answer, Form};
use odb_live::{LiveRun, Part};
use std::alloc::Global;

/// Copies the text and the positions of a part to the buffers if both fit, sets how long they are, and returns the status.
fn give_part(
    part: &Part,
    text: &mut [u8],
    text_length: &mut usize,
    positions: &mut [u32],
    count: &mut usize,
) -> u32
    ensures { Gives (string_bytes part.now.text) part.now.positions.items 0 result text_length.new
        count.new text.old text.new positions.old positions.new }
{
    give_list(
        part.text.as_str(),
        &part.positions,
        DONE,
        text,
        text_length,
        positions,
        count,
    )
}

/// Marks the requests of a part as sent if the status is that of what is done.
fn mark(live: &mut LiveRun, part: &Part, status: u32)
    requires { All (λ i. i < size live.old.run) part.now.positions.items }
    ensures given { status ≡ 0 → live.new ≡ with_part live.old part.now.positions.items }
    ensures kept { status ≢ 0 → live.new ≡ live.old }
{
    if status == DONE {
        live.give(&part.positions);
    }
}

/// Gives the next part of a run.
pub fn part(
    live: &mut LiveRun,
    alloc: Global,
    batch: &[u8],
    limit: u32,
    text: &mut [u8],
    text_length: &mut usize,
    positions: &mut [u32],
    count: &mut usize,
    seed: u64,
) -> u32
    ensures { GivesPart live.old live.new batch.now limit result text_length.new count.new text.old
        text.new positions.old positions.new }
{
    *count = 0;
    let next = match live.part(alloc, batch, limit, seed_of(seed)) {
        Ok(next) => next,
        Err(halt) => return give(Answer::of(alloc, Form::Lines, Err(halt)), text, text_length),
    };
    match next {
        Some(found) => {
            let status = give_part(&found, text, text_length, positions, count);
            mark(live, &found, status);
            status
        }
        None => wrong_option(text_length),
    }
}

//! The calls for C on the parts of a live run.

ghost use Rattle.odb_calls.specs.Parts.{GivesPart};
ghost use Rattle.odb_calls.specs.Takes.{TakesPart};

use crate::handle::Handle;
use odb_calls::{parts, takes};
use std::alloc::Global;

/// Gives the next part of a run as the text of a batch of its own, and the positions of its requests: requests that may be sent
/// together, `limit` of them at most, none of which was in a part before. What they need is in the part or has succeeded:
/// dependencies on what has succeeded are left out, and references to it replaced by the Location and the ETag that it has reported.
/// The part ends before the first unit with a request that refers to one that has reported no Location of use, or no ETag. Each
/// body is the bytes of the document. `batch` is the document of the run.
///
/// Returns 0, and `text` and `positions` begin with them, and the requests are sent for the run; `count` is their number, which is 0
/// if nothing may be sent now. Otherwise the run and `positions` are as they were: returns 5 if one of the two has too little room,
/// and `text_length` and `count` say how much is needed. Else `count` is 0: it returns 1 if the batch is refused, or by F90 or F91
/// if the first unit that may begin has such a request, at the first, and `text` begins with the line of the fault; 5 if the line is
/// longer than `text`; 2 if the batch has not the ids and groups of the run's, or a group has more than `limit` requests; and 4 if
/// an allocation fails.
#[unsafe(no_mangle)]
pub extern "C" fn odb_run_part(
    alloc: Global,
    run: &mut Handle,
    batch: &[u8],
    limit: u32,
    text: &mut [u8],
    text_length: &mut usize,
    positions: &mut [u32],
    count: &mut usize,
    seed: u64,
) -> u32
    ensures { GivesPart run.old.value run.new.value batch.now limit result text_length.new count.new
        text.old text.new positions.old positions.new }
{
    parts::part(
        run.live(),
        alloc,
        batch,
        limit,
        text,
        text_length,
        positions,
        count,
        seed,
    )
}

/// Takes what a service has answered a part that [`odb_run_part`] gave: starts the requests of the part, and reports each with the
/// response that has its id, by its status, its headers and the bytes of its body. `part` is the text of the part, `responses` the
/// response document, and `mode` what an error does to the service: if it stops, a request without a response is answered 424.
///
/// A request whose unit has failed, or that the run has stopped before, does not start: it is answered 424. If the service stops, the
/// requests with errors start before one of them is reported; and if an answer that is neither a success nor an error depends on a member
/// of its group that is answered 424, and there is no error, the group starts as one, and this member is reported as a success that was
/// undone. So all of these are kept as far as the width allows.
///
/// Returns 0 and no text. Otherwise the run is as it was: returns 1 if the part is refused, if the responses do not fit it, as
/// [`crate::exports::odb_match_with`] has it, or by F70 if a status is below 200, or headers are not an object of strings whose names
/// differ in lower case; then `text` begins with the line of the fault. Returns 5 if the line is longer than `text`; 2 if `mode` is none,
/// if a request is running, or if one of the part is in none that was given, or has started; and 4 if an allocation fails.
#[unsafe(no_mangle)]
pub extern "C" fn odb_run_take(
    alloc: Global,
    run: &mut Handle,
    part: &[u8],
    responses: &[u8],
    mode: u32,
    text: &mut [u8],
    text_length: &mut usize,
    seed: u64,
) -> u32
    ensures { TakesPart run.old.value run.new.value part.now responses.now mode result text_length.new
        text.old text.new }
{
    takes::take_part(
        run.live(),
        alloc,
        part,
        responses,
        mode,
        text,
        text_length,
        seed,
    )
}

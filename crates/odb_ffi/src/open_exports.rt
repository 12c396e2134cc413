//! The call for C that opens a live run and gives what is to be sent of its requests.

ghost use Rattle.std.specs.Prelude.{◌≡◌, ◌≢◌, IfErr, IfOk, Some};
ghost use Rattle.odb_engine.specs.Halts.{Halted};
ghost use Rattle.odb_live.specs.Live.{IsLeastOfOpening, Opens};
ghost use Rattle.odb_live.specs.Requests.{Sends};
ghost use Rattle.odb_calls.specs.Openings.{OpensBy};

use crate::handle::Handle;
use crate::slot::Slot;
use odb_calls::answer::{give, wrong_option};
use odb_calls::options::{policy_of, seed_of};
use odb_calls::request::Request;
use odb_calls::requests::give_requests;
use odb_calls::status::DONE;
use odb_engine::{Answer, Form, Halt};
use odb_live::{LiveRun, Opened, open_with_requests};
use odb_sched::Policy;
use odb_send::Requests;
use std::alloc::Global;

/// Opens a live run, and returns it on the heap with what is to be sent of its requests.
fn open_boxed(
    alloc: Global,
    batch: &[u8],
    events: &[u8],
    policy: Policy,
    seed: u64,
) -> Result<(Box<LiveRun>, Requests), Halt>
    ensures opened { IfOk result (λ opened. Opens policy batch.now events.now opened.0.value) }
    ensures requests { IfOk result (λ opened. Sends batch.now opened.1) }
    ensures least { IfErr result (Halted (IsLeastOfOpening policy batch.now events.now)) }
{
    let Opened { live, requests } = match open_with_requests(
        alloc,
        batch,
        events,
        policy,
        seed_of(seed),
    ) {
        Ok(found) => found,
        Err(halt) => return Err(halt),
    };
    match Box::new(alloc, live) {
        Ok(live) => Ok((live, requests)),
        Err(_) => Err(Halt::OutOfMemory),
    }
}

/// Writes the handle of a live run to its place if the status is that of what is done, and else drops the run.
fn hold(run: &mut Slot, live: Box<LiveRun>, status: u32)
    ensures held { status ≡ 0 → run.new.value ≡ Some live.value }
    ensures kept { status ≢ 0 → run.new.value ≡ run.old.value }
{
    if status == DONE {
        *run = Slot::of(Handle::of(live));
    }
}

/// Opens the run of the batch in a document as [`crate::run_exports::odb_run_open`] does, and gives what is to be sent of its
/// requests as [`crate::request_exports::odb_requests`] does. The batch is read once.
///
/// Returns 0, and `run` holds the handle, and `text` and `requests` begin with what is to be sent; or 5 if one of the two has too
/// little room, and both are as they were: `text_length` and `count` say how much is needed. If a document is refused, if an event
/// may not come, if `mode` or `width` is wrong or if an allocation fails, `count` is 0, `requests` is as it was, and it returns what
/// [`crate::run_exports::odb_run_open`] does. Unless it returns 0, no run is opened, and `run` is as it was.
#[unsafe(no_mangle)]
pub extern "C" fn odb_run_open_requests(
    alloc: Global,
    batch: &[u8],
    events: &[u8],
    mode: u32,
    width: u32,
    run: &mut Slot,
    text: &mut [u8],
    text_length: &mut usize,
    requests: &mut [Request],
    count: &mut usize,
    seed: u64,
) -> u32
    ensures opened { OpensBy mode width batch.now events.now run.new.value result text_length.new
        count.new text.old text.new requests.old requests.new }
    ensures unopened { result ≢ 0 → run.new.value ≡ run.old.value }
{
    *count = 0;
    let Some(policy) = policy_of(mode, width) else {
        return wrong_option(text_length);
    };
    match open_boxed(alloc, batch, events, policy, seed) {
        Ok((live, sent)) => {
            let status = give_requests(&sent, text, text_length, requests, count);
            hold(run, live, status);
            status
        }
        Err(halt) => give(Answer::of(alloc, Form::Lines, Err(halt)), text, text_length),
    }
}

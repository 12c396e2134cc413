//! A live run with what is to be sent of its requests, by one reading of the batch.

ghost use Rattle.std.specs.Prelude.{◌≢◌, Err, IfOk, IfErr};
ghost use Rattle.odb_engine.specs.Halts.{Halted};
ghost use Rattle.odb_live.specs.Live.{IsLeastAfter, IsLeastOfOpening, IsOpened, Opens};
ghost use Rattle.odb_live.specs.Requests.{Sends};
ghost use Rattle.odb_send.specs.Parts.{AreRequestsOf};
ghost use Rattle.odb_engine.specs.declared.halt.Halt.TheVariants as halts;

use crate::planned::{OfPlan, made_of};
use crate::run::{LiveRun, Opening};
use odb_check::{Plan, Seed};
use odb_engine::Halt;
use odb_sched::Policy;
use odb_send::{Requests, requests_of};
use std::alloc::Global;

/// A run that was opened, and what is to be sent of its requests.
#[derive(Drop)]
pub struct Opened {
    /// The run, as [`crate::open_run`] opens it.
    pub live: LiveRun,
    /// What is to be sent, as [`crate::requests_in`] finds it.
    pub requests: Requests,
}

/// A run that is opened, with what is to be sent.
#[derive(Drop)]
struct WithRequests<'e> {
    opening: Opening<'e>,
}

impl<'e> OfPlan for WithRequests<'e> {
    type Made = Opened;

    ghost makes = { λ with document value batch opened. IsOpened with.opening.policy batch
        with.opening.events.now opened.live × AreRequestsOf document value batch opened.requests };

    ghost refuses = { λ with batch. IsLeastAfter with.opening.policy batch with.opening.events.now };

    fn made(
        &self,
        alloc: Global,
        document: &[u8],
        plan: &Plan<'_>,
        seed: Seed,
    ) -> Result<Opened, Halt> {
        let requests = requests_of(alloc, document, plan)?;
        let live = self.opening.made(alloc, document, plan, seed)?;
        Ok(Opened { live, requests })
    }
}

/// Does what [`crate::open_run`] and [`crate::requests_in`] do, but reads the batch once.
///
/// # Errors
///
/// Those of [`crate::open_run`].
pub fn open_with_requests(
    alloc: Global,
    batch: &[u8],
    events: &[u8],
    policy: Policy,
    seed: Seed,
) -> Result<Opened, Halt>
    ensures run { IfOk result (λ opened. Opens policy batch.now events.now opened.live) }
    ensures requests { IfOk result (λ opened. Sends batch.now opened.requests) }
    ensures least { IfErr result (Halted (IsLeastOfOpening policy batch.now events.now)) }
    ensures read { result ≢ Err halts.Read }
{
    let opening = Opening { events, policy };
    made_of(alloc, batch, &WithRequests { opening }, seed)
}

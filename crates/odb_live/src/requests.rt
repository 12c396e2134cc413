//! What is to be sent of each request of a batch.

ghost use Rattle.std.specs.Prelude.{◌≢◌, Err, IfOk, IfErr};
ghost use Rattle.odb_engine.specs.Cascade.{IsLeast};
ghost use Rattle.odb_engine.specs.Halts.{Halted};
ghost use Rattle.odb_live.specs.Requests.{Sends};
ghost use Rattle.odb_engine.specs.declared.halt.Halt.TheVariants as halts;
ghost use Rattle.odb_send.specs.Parts.{AreRequestsOf};

use crate::planned::{OfPlan, made_of};
use odb_check::{Plan, Seed};
use odb_engine::Halt;
use odb_send::{Requests, requests_of};
use std::alloc::Global;

/// What is to be sent of the requests of a batch.
#[derive(Drop)]
struct Sending;

impl OfPlan for Sending {
    type Made = Requests;

    ghost makes = { λ _ document value batch found. AreRequestsOf document value batch found };

    ghost refuses = { λ _ _ _. ⊥ };

    fn made(
        &self,
        alloc: Global,
        document: &[u8],
        plan: &Plan<'_>,
        _seed: Seed,
    ) -> Result<Requests, Halt> {
        Ok(requests_of(alloc, document, plan)?)
    }
}

/// Returns what is to be sent of each request of the batch in a document, in the order of the batch (OData JSON
/// Format 4.01, section 19.1): its id, method, URL, the request that its URL refers to with the rest of the URL, its
/// headers and group, and the bytes of its body in the document, which are not changed.
///
/// Names are looked up by the seed. Takes O(n log n) time and O(n) memory for a document of n bytes.
///
/// Example: `finds_what_is_to_be_sent` in crates/odb_tests_live/src/requests.rt.
///
/// # Errors
///
/// `Refused` by the first fault of the batch, as [`odb_engine::check_batch`] refuses it; `OutOfMemory` if an allocation
/// fails. Never `Read`.
pub fn requests_in(alloc: Global, batch: &[u8], seed: Seed) -> Result<Requests, Halt>
    ensures requests { IfOk result (Sends batch.now) }
    ensures least { IfErr result (Halted (IsLeast batch.now)) }
    ensures read { result ≢ Err halts.Read }
{
    made_of(alloc, batch, &Sending, seed)
}

//! What a service has answered a part of a live run, by the response document.

ghost use Rattle.std.specs.Prelude.{◌≡◌, ◌≢◌, ◌≤◌, ◌<◌, ℕ, List, All, Err, IfErr, IfOk, IfSome, None, OnOk, length, slice_index};
ghost use Rattle.serde_json.specs.View.{view};
ghost use Rattle.odb_doc.specs.Documents.{IsDocument};
ghost use Rattle.odb_check.specs.Firsts.{list_below};
ghost use Rattle.odb_check.specs.Plans.{plan_records};
ghost use Rattle.odb_reply.specs.Fits.{places, statuses};
ghost use Rattle.odb_reply.specs.ResponseDocuments.{Entry};
ghost use Rattle.odb_send.specs.ResponseParts.{AreResponsesOf};
ghost use Rattle.odb_engine.specs.declared.halt.Halt.TheVariants as halts;
ghost use Rattle.odb_engine.specs.Halts.{Halted};
ghost use Rattle.odb_engine.specs.Matches.{IsFaultOfResponses};
ghost use Rattle.odb_live.specs.Replies as replies;

use crate::planned::{OfPlan, made_of};
use crate::run::LiveRun;
use odb_check::{Plan, Seed};
use odb_doc::{Disposal, Place};
use odb_engine::{Halt, table_of, value_in};
use odb_reply::{ResponseFault, Responses, Table};
use odb_sched::{Mode, RequestState};
use odb_send::{ResponseList, ResponseParts, responses_of};
use odb_spans::Span;
use serde_json::Value;
use std::alloc::{AllocError, Global};

/// The least status of an answer: those below it are not final (RFC 9110, section 15.2).
const LEAST_FINAL: u16 = 200;

/// What a service has answered a request of a part.
#[derive(Clone, Copy, Debug, Drop, PartialEq, Eq)]
pub struct Reply {
    /// The position of the request in the batch of the run.
    pub position: u32,
    /// The place of the response in its document; one past its end is that of a request that the service has not performed.
    pub place: usize,
    /// The status, from 200 to 599.
    pub status: u16,
    /// The headers in the document, whatever their value is, if there are any.
    pub headers: Option<Span>,
    /// The body in the document, if there is one.
    pub body: Option<Span>,
}

/// Returns whether a request has started.
fn has_started(state: RequestState) -> bool
    ensures { result ≡ replies.has_started state }
{
    matches!(state, RequestState::Running | RequestState::Reported(_))
}

/// Returns the headers of the response at a place.
fn headers_at(found: &ResponseList, place: usize) -> Option<Span>
    ensures { result ≡ replies.headers_at found.now place }
{
    found.parts.get(place)?.headers
}

/// Returns the body of the response at a place.
fn body_at(found: &ResponseList, place: usize) -> Option<Span>
    ensures { result ≡ replies.body_at found.now place }
{
    found.parts.get(place)?.body
}

/// Checks that each status of a table is final, which is 200 to 599.
fn check_final(plan: &Plan<'_>, table: &Table) -> Result<(), ResponseFault>
    requires places { length (places table.now) ≡ length (plan_records plan.now) }
    requires statuses { length (statuses table.now) ≡ length (plan_records plan.now) }
    ensures all { OnOk result ((k : ℕ) → k < length (plan_records plan.now)
        → 200 ≤ slice_index (statuses table.now) k) }
    ensures first { IfErr result (λ fault. replies.IsNotFinal (places table.now) (statuses table.now) fault) }
{
    for k in 0..plan.len() {
        if table.status(k) < LEAST_FINAL {
            return Err(ResponseFault::Response { at: table.place(k) });
        }
    }
    Ok(())
}

/// Returns what the requests of a plan were answered, by their positions in the batch of the run.
fn replies_by(
    alloc: Global,
    plan: &Plan<'_>,
    positions: &[u32],
    found: &ResponseList,
    table: &Table,
) -> Result<Vec<Reply>, AllocError>
    requires positions { length positions.now ≡ length (plan_records plan.now) }
    requires places { length (places table.now) ≡ length (plan_records plan.now) }
    requires statuses { length (statuses table.now) ≡ length (plan_records plan.now) }
    ensures { IfOk result (λ made. made.items ≡ list_below (length (plan_records plan.now))
        (replies.reply_at found.now positions.now (places table.now) (statuses table.now))) }
{
    let mut made = Vec::with_capacity(alloc, positions.len())?;
    for k in 0..plan.len() {
        let place = table.place(k);
        made.push(Reply {
            position: positions[k as usize],
            place,
            status: table.status(k),
            headers: headers_at(found, place),
            body: body_at(found, place),
        })?;
    }
    Ok(made)
}

/// Returns where the parts of the responses in a document lie, by the value of the document.
fn found_in(alloc: Global, document: &[u8], value: &Value) -> Result<ResponseList, Halt>
    requires { IsDocument document.now (view value.now) }
    ensures found { IfOk result (λ found. (entries : List Entry)
        × AreResponsesOf document.now (view value.now) entries found) }
    ensures least { IfErr result (Halted (IsFaultOfResponses (view value.now))) }
    ensures read { result ≢ Err halts.Read }
{
    let read = Responses::read(alloc, value)?;
    let found = responses_of(alloc, document, &read)?;
    Ok(found)
}

/// Returns the table of the responses in a value, which fit the batch of a plan, if all statuses are final.
fn table_in(alloc: Global, plan: &Plan<'_>, value: &Value, mode: Mode) -> Result<Table, Halt>
    ensures table { IfOk result (λ table. replies.IsFinalTableIn mode (plan_records plan.now) (view value.now)
        (places table) (statuses table)) }
    ensures least { IfErr result (Halted (replies.HasNoFinalTable mode (plan_records plan.now) (view value.now))) }
    ensures read { result ≢ Err halts.Read }
{
    let table = table_of(alloc, plan, value, mode, Disposal::Drop)?;
    check_final(plan, &table)?;
    Ok(table)
}

/// Returns what the requests of a plan were answered by a response document.
fn replies_in(
    alloc: Global,
    plan: &Plan<'_>,
    positions: &[u32],
    document: &[u8],
    mode: Mode,
) -> Result<Vec<Reply>, Halt>
    requires { length positions.now ≡ length (plan_records plan.now) }
    ensures replies { IfOk result (λ made. replies.AreReplies mode (plan_records plan.now) positions.now
        document.now made.items) }
    ensures within { IfOk result (λ made. All (replies.LiesIn document.now) made.items) }
    ensures least { IfErr result (Halted (replies.IsLeastOfReplies mode (plan_records plan.now) document.now)) }
    ensures read { result ≢ Err halts.Read }
{
    let value = value_in(alloc, document, Place::Responses)?;
    let found = found_in(alloc, document, &value)?;
    let table = table_in(alloc, plan, &value, mode)?;
    let made = replies_by(alloc, plan, positions, &found, &table)?;
    Ok(made)
}

/// What a part of a run was answered.
#[derive(Drop)]
struct Answered<'a> {
    live: &'a LiveRun,
    responses: &'a [u8],
    mode: Mode,
}

impl<'a> OfPlan for Answered<'a> {
    type Made = Option<Vec<Reply>>;

    ghost makes = { λ answered _ _ batch found. replies.AreFound answered.live.now batch answered.responses.now
        answered.mode found };

    ghost refuses = { λ answered batch. replies.RefusesReplies answered.live.now batch answered.responses.now
        answered.mode };

    fn made(
        &self,
        alloc: Global,
        _document: &[u8],
        plan: &Plan<'_>,
        _seed: Seed,
    ) -> Result<Option<Vec<Reply>>, Halt> {
        self.live.replies_on(alloc, plan, self.responses, self.mode)
    }
}

impl LiveRun {
    /// Returns the position of the request with this id if it is in a part that was given, and has not started.
    fn out_position(&self, id: &str) -> Option<u32>
        ensures some { IfSome result (replies.IsOutAt self.now id.now) }
        ensures none { result ≡ None → (i : ℕ) → ¬ replies.IsOutAt self.now id.now i }
    {
        let i = self.position_of(id.as_bytes())?;
        if i < self.run.len() && self.out[i as usize] && !has_started(self.run.state(i)) {
            Some(i)
        } else {
            None
        }
    }

    /// Returns the positions of the requests of a plan if each is in a part that was given, and has not started.
    fn out_positions(&self, alloc: Global, plan: &Plan<'_>) -> Result<Option<Vec<u32>>, AllocError>
        ensures some { IfOk result (λ found. IfSome found (λ positions.
            replies.AreOut self.now (plan_records plan.now) positions.items)) }
        ensures none { IfOk result (λ found. found ≡ None → ¬ replies.MayTake self.now (plan_records plan.now)) }
    {
        if !self.run.running().is_empty() {
            return Ok(None);
        }
        let mut positions = Vec::with_capacity(alloc, plan.len() as usize)?;
        for k in 0..plan.len() {
            match self.out_position(plan.request(k).id) {
                Some(i) => positions.push(i)?,
                None => return Ok(None),
            }
        }
        Ok(Some(positions))
    }

    /// Returns what a service has answered the requests of a plan; `None` if they are no part that may be taken.
    fn replies_on(
        &self,
        alloc: Global,
        plan: &Plan<'_>,
        responses: &[u8],
        mode: Mode,
    ) -> Result<Option<Vec<Reply>>, Halt>
        ensures replies { IfOk result (replies.AreFound self.now (plan_records plan.now) responses.now mode) }
        ensures least { IfErr result (Halted (replies.RefusesReplies self.now (plan_records plan.now)
            responses.now mode)) }
        ensures read { result ≢ Err halts.Read }
    {
        let Some(positions) = self.out_positions(alloc, plan)? else {
            return Ok(None);
        };
        let made = replies_in(alloc, plan, &positions, responses, mode)?;
        Ok(Some(made))
    }

    /// Returns what a service has answered the requests of a part ([`LiveRun::part`]), by the response document, in the order of
    /// the part. `None` if something is running, or if a request of the part is in no part that was given, or has started.
    ///
    /// The responses have to fit the part, as [`odb_engine::match_batch`] has it; if the service stops at its first error, a request
    /// without a response is answered 424. The run stays as it is.
    ///
    /// Names are looked up by the seed. Takes O(n log n) time and O(n) memory for documents of n bytes.
    ///
    /// # Errors
    ///
    /// `Refused` by the first fault of the part; else of the response document, F70; else by F71 to F75 if the responses do not
    /// fit; else by F70 of the first request whose status is not final, which is 200 to 599. `OutOfMemory` if an allocation
    /// fails. Never `Read`.
    pub fn replies(
        &self,
        alloc: Global,
        part: &[u8],
        responses: &[u8],
        mode: Mode,
        seed: Seed,
    ) -> Result<Option<Vec<Reply>>, Halt>
        ensures replies { IfOk result (λ found. IfSome found (λ made.
            replies.AreRepliesTo self.now part.now responses.now mode made.items)) }
        ensures within { IfOk result (λ found. IfSome found (λ made. All (replies.LiesIn responses.now) made.items)) }
        ensures other { IfOk result (λ found. found ≡ None → replies.TakesNone self.now part.now) }
        ensures least { IfErr result (Halted (replies.IsLeastOfTaking self.now part.now responses.now mode)) }
        ensures read { result ≢ Err halts.Read }
    {
        let answered = Answered {
            live: self,
            responses,
            mode,
        };
        made_of(alloc, part, &answered, seed)
    }
}

//! The parts of a live run: what of its batch may be sent together next.

ghost use Rattle.std.specs.Prelude.{◌≡◌, ◌≢◌, ◌<◌, All, Err, IfOk, IfErr, IfSome, None, length, map};
ghost use Rattle.serde_json.specs.Data.{Data};
ghost use Rattle.odb_check.specs.Firsts.{list_below};
ghost use Rattle.odb_check.specs.Plans.{plan_records};
ghost use Rattle.odb_sched.specs.run.State.{size};
ghost use Rattle.odb_send.specs.Answers.{answer_of};
ghost use Rattle.odb_send.specs.NextPart.{HasNoLonger};
ghost use Rattle.odb_send.specs.Parts.{IsBatchIn};
ghost use Rattle.odb_engine.specs.declared.halt.Halt.TheVariants as halts;
ghost use Rattle.odb_engine.specs.Halts.{Halted};
ghost use Rattle.odb_live.specs.LiveParts as parts;

use crate::planned::{OfPlan, made_of};
use crate::run::LiveRun;
use odb_check::{Plan, Seed};
use odb_doc::status::is_success;
use odb_engine::Halt;
use odb_sched::{OwnedRun, RequestState};
use odb_send::{Recorded, RestFault, fits_limit, part_of, positions_of, rest_text};
use std::alloc::{AllocError, Global};

/// A part of the batch of a live run: requests that may be sent together.
#[derive(Drop)]
pub struct Part {
    /// The text of a batch of these requests.
    pub text: String,
    /// Their positions in the batch of the run, in order.
    pub positions: Vec<u32>,
}

/// Returns what has become of a request, where one that is in a part and may still start counts as running.
fn seen(out: bool, state: RequestState) -> RequestState
    ensures { result ≡ parts.seen out state }
{
    if !out {
        return state;
    }
    match state {
        RequestState::Waiting => RequestState::Running,
        RequestState::Ready => RequestState::Running,
        RequestState::Running => RequestState::Running,
        RequestState::Reported(status) => RequestState::Reported(status),
        RequestState::Skipped => RequestState::Skipped,
    }
}

/// Returns what has become of each request, by which are in a part.
fn states_of(alloc: Global, run: &OwnedRun, out: &[bool]) -> Result<Vec<RequestState>, AllocError>
    requires { length out.now ≡ size run.now }
    ensures { IfOk result (λ found. found.items ≡ parts.states_of run.now out.now) }
{
    let mut found = Vec::with_capacity(alloc, run.len() as usize)?;
    for i in 0..run.len() {
        found.push(seen(out[i as usize], run.state(i)))?;
    }
    Ok(found)
}

/// Returns the Location and the ETag that a request has reported, if it has succeeded.
fn answer_at(run: &OwnedRun, i: u32) -> Recorded<'_>
    requires { i < size run.now }
    ensures { answer_of result ≡ parts.answer run.now i }
{
    match run.reported(i) {
        Some(outcome) if is_success(outcome.status) => match outcome.headers() {
            Some(headers) => Recorded::of(headers),
            None => Recorded::NOTHING,
        },
        _ => Recorded::NOTHING,
    }
}

/// Returns the Locations and the ETags that the requests have reported which have succeeded.
fn answers_of(alloc: Global, run: &OwnedRun) -> Result<Vec<Recorded<'_>>, AllocError>
    ensures { IfOk result (λ found. map answer_of found.items
        ≡ list_below (size run.now) (parts.answer run.now)) }
{
    let mut found = Vec::with_capacity(alloc, run.len() as usize)?;
    for i in 0..run.len() {
        found.push(answer_at(run, i))?;
    }
    Ok(found)
}

/// Returns the next part of a run, by the plan of its batch and by which requests are in a part.
fn part_in(
    alloc: Global,
    run: &OwnedRun,
    out: &[bool],
    document: &[u8],
    plan: &Plan<'_>,
    limit: u32,
) -> Result<Part, RestFault>
    requires document { (d : Data) × IsBatchIn document.now d (plan_records plan.now) }
    requires size { size run.now ≡ length (plan_records plan.now) }
    requires out { length out.now ≡ size run.now }
    ensures part { IfOk result (parts.IsPart document.now (plan_records plan.now) run.now out.now limit) }
    ensures within { IfOk result (λ part. All (λ i. i < size run.now) part.positions.items) }
    ensures least { IfErr result (parts.LacksHeaders (plan_records plan.now) run.now out.now limit) }
{
    let states = states_of(alloc, run, out)?;
    let answers = answers_of(alloc, run)?;
    let part = part_of(alloc, plan, &states, limit, &answers)?;
    let text = rest_text(alloc, document, plan, &part)?;
    let positions = positions_of(alloc, plan, &part)?;
    Ok(Part { text, positions })
}

/// Marks the requests at these positions.
fn mark(out: &mut [bool], positions: &[u32])
    requires { All (λ i. i < length out.old) positions.now }
    ensures { out.new ≡ parts.marks_after out.old positions.now }
{
    for i in positions {
        out[*i as usize] = true;
    }
}

/// The next part of a run.
#[derive(Drop)]
struct NextPart<'r> {
    live: &'r LiveRun,
    limit: u32,
}

impl<'r> OfPlan for NextPart<'r> {
    type Made = Option<Part>;

    ghost makes = { λ next document _ batch found. parts.IsFoundPart next.live.now document batch next.limit found };

    ghost refuses = { λ next batch. parts.RefusesPart next.live.now batch next.limit };

    fn made(
        &self,
        alloc: Global,
        document: &[u8],
        plan: &Plan<'_>,
        _seed: Seed,
    ) -> Result<Option<Part>, Halt> {
        self.live.part_on(alloc, document, plan, self.limit)
    }
}

impl LiveRun {
    /// Returns the next part of the run by the plan of the batch in a document; `None` if that is another batch than that
    /// of the run, or has a group of more than `limit` requests.
    fn part_on(
        &self,
        alloc: Global,
        document: &[u8],
        plan: &Plan<'_>,
        limit: u32,
    ) -> Result<Option<Part>, Halt>
        requires { (d : Data) × IsBatchIn document.now d (plan_records plan.now) }
        ensures part { IfOk result (parts.IsFoundPart self.now document.now (plan_records plan.now) limit) }
        ensures least { IfErr result (Halted (parts.RefusesPart self.now (plan_records plan.now) limit)) }
        ensures read { result ≢ Err halts.Read }
    {
        if !self.labels.are_of(plan) {
            return Ok(None);
        }
        if !fits_limit(plan, limit) {
            return Ok(None);
        }
        let part = part_in(alloc, &self.run, &self.out, document, plan, limit)?;
        Ok(Some(part))
    }

    /// Returns the next part of the run as the text of a batch of its own: requests that may be sent together, `limit`
    /// of them at most ([`odb_send::part_of`]). None of them is in a part that was given before ([`LiveRun::give`]), and what
    /// they need is in this one or has succeeded. It ends before the first unit that lacks a Location or an ETag. `None` if
    /// `batch` has not the ids and the groups of the run's batch, or if one of its groups has more than `limit` requests.
    ///
    /// The run stays as it is. A part without requests means that nothing may be sent now. What holds of every part is in
    /// [`crate::laws::parts`].
    ///
    /// Names are looked up by the seed. Takes O(n log n) time and O(n) memory for a document of n bytes.
    ///
    /// # Errors
    ///
    /// `Refused` by the first fault of the batch; or if the first unit that may be sent lacks a Location or an ETag, at its first
    /// request that does: by F90 if its URL refers to one that has reported no Location of use, else by F91 since a condition
    /// refers to one that has not succeeded, or has reported no ETag. Report this request, and the next part is that of what is
    /// left. `OutOfMemory` if an allocation fails. Never `Read`.
    pub fn part(
        &self,
        alloc: Global,
        batch: &[u8],
        limit: u32,
        seed: Seed,
    ) -> Result<Option<Part>, Halt>
        ensures part { IfOk result (λ found. IfSome found (parts.IsPartIn self.now batch.now limit)) }
        ensures within { IfOk result (λ found. IfSome found (λ part.
            All (λ i. i < size self.now.run) part.positions.items)) }
        ensures other { IfOk result (λ found. found ≡ None → parts.HasNoParts self.now batch.now limit) }
        ensures least { IfErr result (Halted (parts.IsLeastOfPart self.now batch.now limit)) }
        ensures read { result ≢ Err halts.Read }
    {
        made_of(alloc, batch, &NextPart { live: self, limit }, seed)
    }

    /// Marks the requests of a part as sent: from now on no other part has one of them.
    ///
    /// Once the part is answered, start its units in order and report their requests: then the next part has
    /// what they made possible.
    pub fn give(&mut self, positions: &[u32])
        requires { All (λ i. i < size self.old.run) positions.now }
        ensures { self.new ≡ parts.with_part self.old positions.now }
    {
        mark(&mut self.out, positions);
    }
}

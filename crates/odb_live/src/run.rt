//! Live runs: a run that its caller drives, with what its response needs of the batch.

ghost use Rattle.std.specs.Prelude.{◌≡◌, ◌≢◌, ◌<◌, ◌↔◌, true, false, All, Some, Err, IfOk, IfErr, OnOk, OnErr, IsOk, IsTrue, string_bytes};
ghost use Rattle.serde_json.specs.Read.{read};
ghost use Rattle.odb_check.specs.Plans.{plan_records};
ghost use Rattle.odb_check.specs.Seeds.{IsSeeded};
ghost use Rattle.odb_reply.specs.BodyTexts.{value_with};
ghost use Rattle.odb_reply.specs.Readable.{HasShallowValues};
ghost use Rattle.odb_sched.specs.run.Answers.{answer, undone};
ghost use Rattle.odb_sched.specs.run.State.{size};
ghost use Rattle.odb_sched.specs.run.State as state;
ghost use Rattle.odb_sched.specs.run.Steps.{IsReportCause, IsStartCause, is_finished, may_report, may_start};
ghost use Rattle.odb_engine.specs.declared.form.Form.{Form};
ghost use Rattle.odb_engine.specs.declared.halt.Halt.TheVariants as halts;
ghost use Rattle.odb_engine.specs.Halts.{Found, Halted, HaltsBy};
ghost use Rattle.odb_live.specs.Labels.{id_lines, position_of};
ghost use Rattle.odb_live.specs.Live as live;

mod labels;
mod opened;
mod parts;
mod replies;
mod units;

use crate::planned::{OfPlan, made_of};
use labels::OwnedLabels;
use odb_check::laws::every_plan;
use odb_check::{Plan, Seed};
use odb_dense::none_for_each;
use odb_doc::{Events, Outcome, Place};
use odb_engine::{EngineRule, Halt, value_in};
use odb_reply::{JsonText, response_of};
use odb_sched::{OwnedRun, Policy, ReportRefusal, StartRefusal, resolve, run};
pub use opened::{Opened, open_with_requests};
pub use parts::Part;
pub use replies::Reply;
use std::alloc::{AllocError, Global};
use std::marker::Model;

/// A run of a batch that the check accepts, the ids and groups of its requests, the bodies that were
/// reported as text, and which requests are in a part. It borrows nothing of the batch.
#[derive(Drop)]
pub struct LiveRun {
    run: OwnedRun,
    labels: OwnedLabels,
    /// The bodies that were reported as text, by position.
    texts: Vec<Option<JsonText>>,
    /// Whether each request is in a part that was given, by position.
    out: Vec<bool>,
}

impl Model for LiveRun {
    ghost use Rattle.odb_doc.specs.DataCodes.{data_code, method_code};
    ghost use Rattle.odb_live.specs.Live.{Live};

    ghost Value = { Live };

    ghost use Rattle.odb_sched.specs.contracts.phase.Phase as phase;
    ghost use Rattle.odb_sched.specs.contracts.policy.Policy as policies;
    ghost use Rattle.std.specs.Coded.{codes};

    ghost coded = { Prim.hlevel (codes, data_code, method_code, policies.the_row.coded, phase.the_row.coded) };

    ghost use Rattle.odb_live.specs.LiveRuns.{live_of, IsOfOneBatch};

    ghost view = { live_of };

    ghost invariant = { IsOfOneBatch };
}

/// Returns the run of a plan after the recorded events in a document.
fn run_after(
    alloc: Global,
    plan: &Plan<'_>,
    events: &[u8],
    policy: Policy,
) -> Result<OwnedRun, Halt>
    ensures run { IfOk result (live.IsAfter policy (plan_records plan.now) events.now) }
    ensures least { IfErr result
        (Halted (live.IsLeastAfter policy (plan_records plan.now) events.now)) }
    ensures plan_graph { IfOk result (λ run. run.plan_graph ≡ state.plan_graph plan.now) }
    ensures read { result ≢ Err halts.Read }
{
    let value = value_in(alloc, events, Place::Events)?;
    let named = Events::read(alloc, value)?;
    let resolved = resolve(alloc, plan, named)?;
    let scheduler = run(alloc, plan, policy, resolved)?;
    Ok(scheduler.into_owned())
}

/// Returns the live run of a plan, which was made with this seed, after the recorded events in a document.
fn open_on(
    alloc: Global,
    plan: &Plan<'_>,
    _seed: Seed,
    events: &[u8],
    policy: Policy,
) -> Result<LiveRun, Halt>
    requires { IsSeeded _seed.number plan.now }
    ensures run { IfOk result (live.IsOpened policy (plan_records plan.now) events.now) }
    ensures least { IfErr result
        (Halted (live.IsLeastAfter policy (plan_records plan.now) events.now)) }
    ensures read { result ≢ Err halts.Read }
{
    every_plan(plan);
    let labels = OwnedLabels::of(alloc, plan)?;
    let texts = none_for_each(alloc, plan.len())?;
    let out = vec![in alloc; false; plan.len() as usize]?;
    let run = run_after(alloc, plan, events, policy)?;
    Ok(LiveRun {
        run,
        labels,
        texts,
        out,
    })
}

/// A run that is opened after the recorded events in a document.
#[derive(Clone, Copy, Drop)]
pub(crate) struct Opening<'e> {
    pub(crate) events: &'e [u8],
    pub(crate) policy: Policy,
}

impl<'e> OfPlan for Opening<'e> {
    type Made = LiveRun;

    ghost makes = { λ opening _ _ batch made. live.IsOpened opening.policy batch opening.events.now made };

    ghost refuses = { λ opening batch. live.IsLeastAfter opening.policy batch opening.events.now };

    fn made(
        &self,
        alloc: Global,
        _document: &[u8],
        plan: &Plan<'_>,
        seed: Seed,
    ) -> Result<LiveRun, Halt> {
        open_on(alloc, plan, seed, self.events, self.policy)
    }
}

/// Returns the run of the batch in a document after the recorded events in another, which may be none:
/// `{"events":[]}`. It borrows nothing of the documents.
///
/// The policy sets whether an error stops the run and how many requests may run at once. Names are
/// looked up by the seed. Takes O(n log n) time and O(n) memory for n bytes of documents; what is kept
/// is O(requests + dependencies), the ids and groups, and the outcomes that the events report. Their bodies
/// are values.
///
/// Example: `send_all` in crates/odb_tests_live/src/examples.rt.
///
/// # Errors
///
/// `Refused` by the first fault of the batch; else of the events document; else F65 of the first event
/// that names no request; else the first event that may not come, with its first cause, S1 to S5 or P1
/// and P2. `OutOfMemory` if an allocation fails. Never `Read`.
pub fn open_run(
    alloc: Global,
    batch: &[u8],
    events: &[u8],
    policy: Policy,
    seed: Seed,
) -> Result<LiveRun, Halt>
    ensures run { IfOk result (live.Opens policy batch.now events.now) }
    ensures least { IfErr result (Halted (live.IsLeastOfOpening policy batch.now events.now)) }
    ensures read { result ≢ Err halts.Read }
{
    let opening = Opening { events, policy };
    made_of(alloc, batch, &opening, seed)
}

impl LiveRun {
    /// Returns the run: which requests are ready and which are running, and whether it is finished.
    pub fn run(&self) -> &OwnedRun
        ensures { result.now ≡ self.now.run }
    {
        &self.run
    }

    /// Starts request `i`, counted from 0.
    ///
    /// # Errors
    ///
    /// The first of the causes S1 to S5 that applies; the run is unchanged.
    pub fn start(&mut self, i: u32) -> Result<(), StartRefusal>
        requires { i < size self.old.run }
        ensures ok { OnOk result (self.new ≡ live.with_run self.old (state.started self.old.run i)) }
        ensures allowed { IsOk result ↔ IsTrue (may_start self.old.run i) }
        ensures cause { IfErr result (IsStartCause self.old.run i) }
        ensures err { OnErr result (self.new ≡ self.old) }
    {
        self.run.start(i)
    }

    /// Takes the outcome of a running request.
    ///
    /// Example: `send_next` in crates/odb_tests_live/src/examples.rt.
    ///
    /// # Errors
    ///
    /// The first of P1 and P2 that applies, with the outcome; the run is unchanged.
    pub fn report(&mut self, i: u32, outcome: Outcome) -> Result<(), (ReportRefusal, Outcome)>
        requires { i < size self.old.run }
        ensures ok { OnOk result
            (self.new ≡ live.with_run self.old (state.reported self.old.run i outcome)) }
        ensures allowed { IsOk result ↔ IsTrue (may_report self.old.run i outcome) }
        ensures cause { IfErr result (λ e. IsReportCause self.old.run i outcome e.0) }
        ensures back { IfErr result (λ e. e.1 ≡ outcome) }
        ensures err { OnErr result (self.new ≡ self.old) }
    {
        self.run.report(i, outcome)
    }

    /// Takes the outcome of a running request and its body as JSON text, which the response repeats byte for
    /// byte, whatever numbers it has. Without a text the body is that of the outcome.
    ///
    /// # Errors
    ///
    /// The first of P1 and P2 that applies, with the outcome; the run is unchanged.
    pub fn report_text(
        &mut self,
        i: u32,
        outcome: Outcome,
        body: Option<JsonText>,
    ) -> Result<(), (ReportRefusal, Outcome)>
        requires { i < size self.old.run }
        ensures ok { OnOk result (self.new ≡ live.with_text
            (live.with_run self.old (state.reported self.old.run i outcome)) i body) }
        ensures allowed { IsOk result ↔ IsTrue (may_report self.old.run i outcome) }
        ensures cause { IfErr result (λ e. IsReportCause self.old.run i outcome e.0) }
        ensures back { IfErr result (λ e. e.1 ≡ outcome) }
        ensures err { OnErr result (self.new ≡ self.old) }
    {
        match self.run.report(i, outcome) {
            Ok(()) => {
                self.texts[i as usize] = body;
                Ok(())
            }
            Err(refused) => Err(refused),
        }
    }

    /// Returns the position of the request with this id, or `None` if there is none, as for bytes that
    /// are not UTF-8.
    ///
    /// Takes O(log n) comparisons of ids for n requests, and allocates nothing.
    pub fn position_of(&self, id: &[u8]) -> Option<u32>
        ensures { result ≡ position_of self.now.labels id.now }
    {
        self.labels.position_of(id)
    }

    /// Returns the ids of the requests, one a line, in the order of their positions.
    ///
    /// # Errors
    ///
    /// If an allocation fails.
    pub fn ids(&self, alloc: Global) -> Result<String, AllocError>
        ensures { IfOk result (λ text. string_bytes text ≡ id_lines self.now.labels) }
    {
        self.labels.lines(alloc)
    }

    /// Returns what [`odb_engine::run_batch`] writes of the batch after the same events, but with each body that
    /// was reported as text in its place: the response and a newline if the run is finished.
    ///
    /// Takes time and memory in proportion to the response. If no body that is a value nests more than 124
    /// deep, `serde_json` reads the line as the response, in which each text is the value that it is read as.
    ///
    /// # Errors
    ///
    /// `Refused` by F66 if the run is not finished, whatever memory there is; or by F50 if it answers a request by a
    /// body that is a value with a number that is not whole; else `OutOfMemory` if an allocation fails. Never `Read`.
    pub fn response(&self, alloc: Global) -> Result<String, Halt>
        ensures found { (form : Form) → Found (live.Shows self.now) form result }
        ensures unfinished { IfErr result (λ halt. is_finished self.now.run ≡ false
            → HaltsBy (live.end_row self.now.run) halt) }
        ensures read { result ≢ Err halts.Read }
        ensures reads_back { IfOk result (λ text. HasShallowValues self.now.texts self.now.run
            → read (string_bytes text)
            ≡ Some (value_with self.now.labels self.now.texts (answer self.now.run))) }
    {
        if !self.run.is_finished() {
            return Err(Halt::from(EngineRule::Unfinished));
        }
        let mut text = response_of(alloc, &self.labels, &self.texts, &self.run)?;
        text.push('\n')?;
        Ok(text)
    }

    /// Returns the positions of the undone requests of a finished run, from the last to the first: those
    /// that reported a status from 200 to 299 but are answered 424, since their unit did not succeed.
    ///
    /// Takes O(requests) time and memory.
    ///
    /// # Errors
    ///
    /// `Refused` by F66 if the run is not finished, whatever memory there is; else `OutOfMemory` if an
    /// allocation fails. Never `Read`.
    pub fn undone(&self, alloc: Global) -> Result<Vec<u32>, Halt>
        ensures value { IfOk result (λ positions. positions.items ≡ undone self.now.run) }
        ensures within { IfOk result (λ positions. All (λ i. i < size self.now.run) positions.items) }
        ensures finished { OnOk result (is_finished self.now.run ≡ true) }
        ensures least { IfErr result (HaltsBy (live.end_row self.now.run)) }
    {
        let run = self.run();
        if !run.is_finished() {
            return Err(Halt::from(EngineRule::Unfinished));
        }
        Ok(run.undone(alloc)?)
    }
}

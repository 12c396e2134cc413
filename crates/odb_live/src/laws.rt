//! What the contracts of live runs determine.
//!
//! The laws are clauses of functions that change nothing. They speak of the very relations that the clauses of the calls
//! cite.

ghost use Rattle.std.specs.Prelude.{◌≡◌, ◌<◌, ℕ, true, List, Some};
ghost use Rattle.odb_sched.specs.declared.event.Event.{Event};
ghost use Rattle.odb_sched.specs.declared.policy.Policy.{Policy};
ghost use Rattle.odb_sched.specs.run.Runs.{event_position};
ghost use Rattle.odb_sched.specs.run.State.{after, size};
ghost use Rattle.odb_sched.specs.run.Steps.{may_come};
ghost use Rattle.odb_engine.specs.Cascade.{Accepts, Answers};
ghost use Rattle.odb_engine.specs.Runs.{Runs};
ghost use Rattle.odb_engine.specs.declared.ending.Ended.{Ended};
ghost use Rattle.odb_engine.specs.declared.form.Form.{Form};
ghost use Rattle.odb_live.specs.Live.{Live, Opens, RecordsOneMore, Shows, with_run};

pub mod parts;

/// A live run is the run of the events that it has taken: what is written of it is what a run by
/// recorded events writes of the same events. Two documents open one run (`opening`).
///
/// `events` and `more` are documents of events, of which `more` records one event more than `events`.
/// The relations are those of [`crate::open_run`], [`crate::LiveRun::response`] and
/// [`odb_engine::run_batch`].
pub fn one_live_run()
    ensures text { (policy : Policy) (form : Form) (batch events text different : List ℕ)
        (live : Live) (ended other : Ended) → Opens policy batch events live → Shows live form ended text
        → Answers (Runs policy (Some events)) batch form other different
        → (ended ≡ other) × (text ≡ different) }
    ensures goes_on { (policy : Policy) (batch events more : List ℕ) (live : Live) (event : Event)
        → Opens policy batch events live
        → Accepts batch (λ requests. RecordsOneMore requests events more event)
        → event_position event < size live.run → may_come live.run event ≡ true
        → Opens policy batch more (with_run live (after live.run event)) }
    ensures opening { (policy : Policy) (batch events : List ℕ) (live other : Live)
        → Opens policy batch events live → Opens policy batch events other → live ≡ other }
{
    odb_doc::laws::one_batch();
    odb_doc::laws::one_fault();
    odb_check::laws::one_fault();
    odb_doc::laws::one_history();
    odb_sched::laws::every_cause();
}

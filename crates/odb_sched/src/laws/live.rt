//! What is true of every live run: of starts and reports, units that are sent as one, and a stop, whatever is
//! started and reported.

ghost use Rattle.std.specs.Prelude.{◌≡◌, ◌↔◌, ◌++◌, ℕ, List, map};
ghost use Rattle.odb_doc.specs.batch.Records.{Record};
ghost use Rattle.odb_check.specs.PlanGraph.{HasNamesAsNeeds, IsPlan, PlanGraph};
ghost use Rattle.odb_check.specs.Plans.{batch_plan_graph};
ghost use Rattle.odb_sched.specs.declared.policy.Mode.{Mode};
ghost use Rattle.odb_sched.specs.declared.policy.Policy.{Policy};
ghost use Rattle.odb_sched.specs.declared.event.Event.{Event};
ghost use Rattle.odb_sched.specs.run.Runs.{IsRunFrom, after_all};
ghost use Rattle.odb_sched.specs.run.State.{first_state, without_requests};
ghost use Rattle.odb_sched.specs.run.LiveEvents.{LiveEvent, Single, IsLiveRun, IsLiveRunFrom, after_all_live, live_state};
ghost use Rattle.odb_sched.specs.run.LiveLaws.{KeepsPromises};
ghost use Rattle.odb_sched.specs.run.Possible.{IsPossible};
ghost use Rattle.odb_sched.specs.run.PossibleLive.{HasLiveRun, IsPossibleLive};

use odb_check::laws::every_batch;

/// What every live run keeps. A live run goes on with live events that may come after it; and recorded events that are a
/// run are a live run, of events one by one, that nobody stops.
///
/// The requests need no plan in hand. Those of a plan are such requests by the clauses `order` and `names` of
/// [`odb_check::laws::every_plan`], and those of a document that the check accepts by these of
/// [`odb_check::laws::every_batch`].
pub fn every_live_run()
    ensures kept { (requests : List Record) (policy : Policy) (events : List LiveEvent)
        → IsPlan (batch_plan_graph requests) → HasNamesAsNeeds requests (batch_plan_graph requests)
        → IsLiveRun requests policy events → KeepsPromises requests policy events }
    ensures goes_on { (requests : List Record) (policy : Policy) (events more : List LiveEvent)
        → IsLiveRun requests policy events
        → IsLiveRunFrom (live_state requests policy events) more
        → IsLiveRun requests policy (events ++ more)
        × (live_state requests policy (events ++ more)
        ≡ after_all_live (live_state requests policy events) more) }
    ensures recorded { (requests : List Record) (policy : Policy) (events : List Event)
        → IsRunFrom (first_state requests policy) events
        → IsLiveRun requests policy (map Single events)
        × (live_state requests policy (map Single events)
        ≡ without_requests (after_all (first_state requests policy) events)) }
{
    every_batch();
}

/// Statuses are possible for live runs if and only if they are those of the answers of some finished live run, in either
/// mode. What is possible for requests that start one by one is possible for live runs.
pub fn every_possible_live()
    ensures runs { (requests : List Record) (mode : Mode) (statuses : ℕ → ℕ)
        → IsPlan (batch_plan_graph requests)
        → IsPossibleLive (batch_plan_graph requests) statuses ↔ HasLiveRun requests mode statuses }
    ensures alone { (plan : PlanGraph) (statuses : ℕ → ℕ)
        → IsPossible plan statuses → IsPossibleLive plan statuses }
{
    every_batch();
}

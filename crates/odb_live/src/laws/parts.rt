//! What is true of every part of a live run (OData JSON Format 4.01, sections 19.1 and 19.4).

ghost use Rattle.std.specs.Prelude.{◌≡◌, ◌<◌, ℕ, Bool, true, false, List, All, Contains, length};
ghost use Rattle.odb_doc.specs.batch.Records.{Record};
ghost use Rattle.odb_check.specs.LeastNameFault.{HasGoodNames};
ghost use Rattle.odb_check.specs.PlanGraph.{HasNamesAsNeeds, IsPlan, IsPlanGraphOf};
ghost use Rattle.odb_check.specs.Plans.{batch_plan_graph};
ghost use Rattle.odb_sched.specs.declared.policy.Policy.{Policy};
ghost use Rattle.odb_sched.specs.run.LiveEvents.{LiveEvent, IsLiveRun, live_state};
ghost use Rattle.odb_sched.specs.run.State.{State, size};
ghost use Rattle.odb_sched.specs.run.Steps.{is_finished};
ghost use Rattle.odb_send.specs.NextPart.{HasNoLonger};
ghost use Rattle.odb_send.specs.Units.{marked};
ghost use Rattle.odb_live.specs.declared.run.parts.Part.{Part};
ghost use Rattle.odb_live.specs.Live.{Live};
ghost use Rattle.odb_engine.specs.Cascade.{Accepts};
ghost use Rattle.odb_live.specs.LiveParts.{HasWholeUnits, IsIdle, IsPart, IsPartIn, RestsOnPart, marks_after, with_part};

use odb_check::laws::every_batch;
use odb_sched::laws::every_live_run;

/// What holds of every part of a live run. No request is in two parts: those of a part were in none (`apart`), and a request that
/// was given stays so (`given`, `kept`). What a request of a part needs is in the part, or has succeeded (`needs`). The groups of a
/// part are whole (`whole`). A run that is not finished, and on which nothing is on its way, gives a part with a request
/// (`goes_on`), since [`crate::LiveRun::part`] refuses a limit that a group exceeds. So does [`crate::LiveRun::part`] for the document
/// that the run was opened with, whatever events it has taken since (`gives`).
///
/// `size` is what the check says of the batch of a run. The premises of `goes_on` are those of [`odb_sched::laws::every_live_run`].
pub fn every_part()
    ensures apart { (document : List ℕ) (batch : List Record) (run : State) (out : List Bool) (limit : ℕ)
        (part : Part) → size run ≡ length batch → IsPart document batch run out limit part
        → (i : ℕ) → Contains part.positions.items i → marked out i ≡ false }
    ensures given { (out : List Bool) (positions : List ℕ) (i : ℕ) → All (λ j. j < length out) positions
        → Contains positions i → marked (marks_after out positions) i ≡ true }
    ensures kept { (out : List Bool) (positions : List ℕ) (i : ℕ) → All (λ j. j < length out) positions
        → marked out i ≡ true → marked (marks_after out positions) i ≡ true }
    ensures needs { (document : List ℕ) (batch : List Record) (run : State) (out : List Bool) (limit : ℕ)
        (part : Part) → size run ≡ length batch → HasGoodNames batch
        → IsPart document batch run out limit part → RestsOnPart batch run part.positions.items }
    ensures whole { (document : List ℕ) (batch : List Record) (run : State) (out : List Bool) (limit : ℕ)
        (part : Part) → size run ≡ length batch → IsPart document batch run out limit part
        → HasWholeUnits batch part.positions.items }
    ensures goes_on { (policy : Policy) (events : List LiveEvent) (document : List ℕ) (batch : List Record)
        (live : Live) (limit : ℕ) (part : Part) → IsPlan (batch_plan_graph batch)
        → HasNamesAsNeeds batch (batch_plan_graph batch) → IsLiveRun batch policy events
        → live.run ≡ live_state batch policy events → is_finished live.run ≡ false → IsIdle live
        → HasNoLonger batch limit → IsPart document batch live.run live.out limit part
        → (i : ℕ) × Contains part.positions.items i }
    ensures gives { (policy : Policy) (events : List LiveEvent) (document : List ℕ) (live : Live)
        (limit : ℕ) (part : Part) → Accepts document (λ batch. IsLiveRun batch policy events
        × (live.run ≡ live_state batch policy events)) → is_finished live.run ≡ false → IsIdle live
        → IsPartIn live document limit part → (i : ℕ) × Contains part.positions.items i }
{
    every_batch();
    every_live_run();
    odb_doc::laws::one_batch();
    odb_doc::laws::one_fault();
    odb_check::laws::one_fault();
}

//! What the requests of a batch determine: the first fault of their names; and what holds of every
//! plan.
//!
//! The laws are clauses of functions that change nothing. They speak of the words that the clauses of
//! [`crate::check`] and of [`Plan`] use, for callers that compare two readings of one batch, or that
//! run a plan.

ghost use Rattle.std.specs.Prelude.{◌≡◌, List, IsSome};
ghost use Rattle.serde_json.specs.Data.{Data};
ghost use Rattle.odb_doc.specs.batch.LeastFault.{IsWellShaped};
ghost use Rattle.odb_doc.specs.batch.Records.{IsBatchOf, Record};
ghost use Rattle.odb_check.specs.FaultTable.{CheckFault};
ghost use Rattle.odb_check.specs.FaultTable.{check_row};
ghost use Rattle.odb_check.specs.Laws.{HasPositions, HasUnits, NeedsGroups};
ghost use Rattle.odb_check.specs.LeastNameFault.{HasGoodNames, RefusesNames};
ghost use Rattle.odb_check.specs.Levels.{HasLevels};
ghost use Rattle.odb_check.specs.Plans.{batch_plan_graph, plan_records, plan_graph};
ghost use Rattle.odb_check.specs.PlanGraph.{HasNamesAsNeeds, IsPlan, IsPlanGraphOf};

use crate::plan::Plan;

/// Requests have one first fault of names at most, and none where their names are good (OData JSON
/// Format 4.01, sections 19.1 and 19.2).
pub fn one_fault()
    ensures one { (requests : List Record) (fault other : CheckFault) → IsSome (check_row fault)
        → IsSome (check_row other) → RefusesNames fault requests → RefusesNames other requests
        → fault ≡ other }
    ensures none { (requests : List Record) (fault : CheckFault) → IsSome (check_row fault)
        → RefusesNames fault requests → ¬ HasGoodNames requests }
{}

/// What holds of every plan (OData JSON Format 4.01, sections 19.1 and 19.2).
///
/// Its names are good. Two positions are in one unit if and only if they are one position or in one
/// group; units are adjacent and in order. Identifiers have their positions, and no other text has
/// one. What a request depends on precedes it; each name of its `dependsOn` and its reference are
/// among its dependencies, and so is the group of each member of another group. Levels are the
/// lengths of the longest chains.
#[tactic(auto, using(crate::proofs::PlanLemmas::plan_laws))]
pub fn every_plan(plan: &Plan<'_>)
    ensures good { HasGoodNames (plan_records plan.now) }
    ensures units { HasUnits (plan_records plan.now) }
    ensures positions { HasPositions (plan_records plan.now) }
    ensures groups { NeedsGroups (plan_records plan.now) }
    ensures levels { HasLevels (plan_records plan.now) }
    ensures plan_graph { IsPlanGraphOf (plan_records plan.now) (plan_graph plan.now) }
    ensures order { IsPlan (plan_graph plan.now) }
    ensures names { HasNamesAsNeeds (plan_records plan.now) (plan_graph plan.now) }
{
    let _count = plan.len();
}

/// What holds of the units and the dependencies of the requests of every batch that the check accepts, for callers that
/// have no plan in hand (OData JSON Format 4.01, sections 19.1 and 19.2).
///
/// `value` is a document without a fault of shape, of which these are the requests. [`every_plan`] says more of a plan.
pub fn every_batch()
    ensures positions { (requests : List Record) → HasGoodNames requests → HasPositions requests }
    ensures plan_graph { (requests : List Record)
        → IsPlanGraphOf requests (batch_plan_graph requests) }
    ensures order { (value : Data) (requests : List Record) → IsWellShaped value
        → IsBatchOf value requests → HasGoodNames requests → IsPlan (batch_plan_graph requests) }
    ensures names { (requests : List Record) → HasGoodNames requests
        → HasNamesAsNeeds requests (batch_plan_graph requests) }
{}

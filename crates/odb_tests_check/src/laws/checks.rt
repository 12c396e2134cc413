//! Checks of batches: two checks of one batch find the same, and what holds of every plan.

ghost use Rattle.std.specs.Prelude.{◌≡◌, List, IfSome, IsTrue, IsSome};
ghost use Rattle.serde_json.specs.View.{view};
ghost use Rattle.odb_doc.specs.batch.Batches.{records};
ghost use Rattle.odb_doc.specs.batch.Records.{IsBatchOf, Record};
ghost use Rattle.odb_check.specs.FaultTable.{check_row};
ghost use Rattle.odb_check.specs.Laws.{HasPositions, HasUnits, NeedsGroups};
ghost use Rattle.odb_check.specs.LeastNameFault.{HasGoodNames, RefusesNames};
ghost use Rattle.odb_check.specs.Levels.{HasLevels};
ghost use Rattle.odb_check.specs.PlanGraph.{HasNamesAsNeeds, IsPlan};
ghost use Rattle.odb_check.specs.Plans.{batch_plan_graph, plan_records};
ghost use Rattle.odb_testing.specs.Readings.{IsReading, IsSame};

use odb_check::laws::{every_batch, every_plan, one_fault};
use odb_check::{CheckFault, Plan, check};
use odb_doc::{Batch, Fault, parse};
use odb_testing::Two;
use serde_json::Value;
use std::alloc::Global;
use std::test::Fail;

/// Plans a batch, unless memory runs out.
fn plan_of<'a: 'b, 'b>(alloc: Global, batch: &'b Batch<'a>) -> Option<Result<Plan<'b>, CheckFault>>
    ensures { IfSome result (IsReading
        (λ plan. HasGoodNames (records batch.now) × (plan_records plan ≡ records batch.now))
        (λ fault. IsSome (check_row fault) × RefusesNames fault (records batch.now))) }
{
    match check(alloc, batch) {
        Ok(plan) => Some(Ok(plan)),
        Err(CheckFault::OutOfMemory) => None,
        Err(fault) => Some(Err(fault)),
    }
}

/// Plans a batch twice.
fn plan_twice<'a: 'b, 'b>(alloc: Global, batch: &'b Batch<'a>) -> Two<Result<Plan<'b>, CheckFault>>
    ensures { IfSome result.0 (λ one. IfSome result.1 (IsSame plan_records one)) }
{
    one_fault();
    (plan_of(alloc, batch), plan_of(alloc, batch))
}

/// Returns whether a batch has a plan. If it has, it has what each plan has.
fn is_planned(alloc: Global, batch: &Batch<'_>) -> bool
    ensures units { IsTrue result → HasUnits (records batch.now) }
    ensures positions { IsTrue result → HasPositions (records batch.now) }
    ensures groups { IsTrue result → NeedsGroups (records batch.now) }
    ensures levels { IsTrue result → HasLevels (records batch.now) }
{
    match check(alloc, batch) {
        Ok(plan) => {
            every_plan(&plan);
            true
        }
        Err(_) => false,
    }
}

/// Returns whether the check accepts the batch in a value. If it does, its requests have units and needs as each plan has.
fn is_accepted(alloc: Global, value: &Value) -> bool
    ensures { IsTrue result → (requests : List Record) × IsBatchOf (view value.now) requests
        × IsPlan (batch_plan_graph requests) × HasNamesAsNeeds requests (batch_plan_graph requests) }
{
    every_batch();
    let Ok(batch) = Batch::read(alloc, value) else {
        return false;
    };
    check(alloc, &batch).is_ok()
}

/// Returns what a check found, without the plan. To run out of memory is a fault.
fn verdict_of(found: &Option<Result<Plan<'_>, CheckFault>>) -> Result<(), CheckFault> {
    match found {
        Some(Ok(_)) => Ok(()),
        Some(Err(fault)) => Err(*fault),
        None => Err(CheckFault::OutOfMemory),
    }
}

/// What two checks of a batch found.
type Verdicts = (Result<(), CheckFault>, Result<(), CheckFault>);

fn verdicts(alloc: Global, batch: &Batch<'_>) -> Verdicts {
    let (one, other) = &plan_twice(alloc, batch);
    (verdict_of(one), verdict_of(other))
}

/// Returns the code of what a check found: none for a plan, and `memory` if memory ran out.
fn code_of(verdict: Result<(), CheckFault>) -> &'static str {
    match verdict {
        Ok(()) => "",
        Err(CheckFault::OutOfMemory) => "memory",
        Err(fault) => fault.code(),
    }
}

/// Whether two checks of a batch found the same, which is this fault, or a plan if it has no code.
fn is_one(alloc: Global, batch: &Batch<'_>, code: &str) -> bool {
    let (one, other) = verdicts(alloc, batch);
    one == other && code_of(one) == code && (!code.is_empty() || is_planned(alloc, batch))
}

/// Documents, and the code of the fault of their names if they have one.
const DOCUMENTS: &[(&str, &str)] = &[
    (
        r#"{"requests":[{"id":"a","method":"get","url":"X"},
            {"id":"b","method":"get","url":"X","dependsOn":["a"]}]}"#,
        "",
    ),
    (
        r#"{"requests":[{"id":"a","method":"get","url":"X"},
            {"id":"a","method":"get","url":"X"}]}"#,
        "F30",
    ),
];

fn is_found(alloc: Global, document: &str, code: &str) -> Result<bool, Fail> {
    let value = parse(alloc, document.as_bytes())?;
    let batch = Batch::read(alloc, &value)?;
    let accepted = is_accepted(alloc, &value);
    Ok(is_one(alloc, &batch, code) && accepted == code.is_empty())
}

#[test]
fn two_checks_find_the_same(rt: HostRuntime) -> Result<(), Fail> {
    for (document, code) in DOCUMENTS {
        assert!(rt; is_found(rt.alloc(), document, code)?);
    }
    Ok(())
}

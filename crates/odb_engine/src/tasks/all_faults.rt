//! All faults of a batch document.

ghost use Rattle.std.specs.Prelude.{◌≡◌, ◌≢◌, ◌⊎◌, ◌∷◌, [], true, Err, IfErr, IfOk, OnOk, map};
ghost use Rattle.std.specs.List.{filter_map};
ghost use Rattle.serde_json.specs.View.{view};
ghost use Rattle.odb_check.specs.LeastNameFault.{HasGoodNames};
ghost use Rattle.odb_check.specs.Plans.{plan_records};
ghost use Rattle.odb_check.specs.Seeds.{IsSeeded};
ghost use Rattle.odb_doc.specs.Faults.{document_row};
ghost use Rattle.odb_doc.specs.Refusals.{printed};
ghost use Rattle.odb_doc.specs.batch.Batches.{records};
ghost use Rattle.odb_doc.specs.batch.LeastFault.{IsLeastFault, IsWellShaped};
ghost use Rattle.odb_doc.specs.batch.Records.{IsBatchOf};
ghost use Rattle.odb_engine.specs.declared.halt.Halt.TheVariants as halts;
ghost use Rattle.odb_engine.specs.AllFaults.{AreFaultsIn, AreFaultsOf};
ghost use Rattle.odb_engine.specs.Answered.{AreNameFaultsOf};
ghost use Rattle.odb_engine.specs.Cascade.{HasFault};
ghost use Rattle.odb_engine.specs.Halts.{Halted, RefusesNamesOf, is_refused};

use crate::disposal::DropOrLeak;
use crate::halt::Halt;
use crate::input::value_in;
use crate::setup::Setup;
use crate::tasks::command::plan_of;
use odb_check::{Plan, name_faults};
use odb_doc::laws::one_fault;
use odb_doc::{Batch, Fault, Place, Refusal, shape_faults};
use serde_json::Value;
use std::alloc::{AllocError, Global};

/// Returns what is printed of faults.
fn refusals_of<F: Fault>(alloc: Global, faults: &[F]) -> Result<Vec<Refusal>, AllocError>
    ensures { IfOk result (λ found. map printed found.items ≡ filter_map F.Fault.row faults.now) }
{
    let mut found = Vec::with_capacity(alloc, faults.len())?;
    for fault in faults {
        if let Some(refusal) = fault.refusal() {
            found.push(refusal)?;
        }
    }
    Ok(found)
}

/// Returns the faults of shape of the value of a batch document that has some.
fn shape_refusals(alloc: Global, value: &Value) -> Result<Vec<Refusal>, AllocError>
    requires { ¬ IsWellShaped (view value.now) }
    ensures { IfOk result (λ found. AreFaultsOf (view value.now) (map printed found.items)) }
{
    let faults = shape_faults(alloc, value)?;
    refusals_of(alloc, &faults)
}

/// Returns the faults of the names of a batch.
fn name_refusals(alloc: Global, batch: &Batch<'_>, setup: Setup) -> Result<Vec<Refusal>, AllocError>
    ensures { IfOk result (λ found. AreNameFaultsOf (records batch.now) (map printed found.items)) }
{
    let faults = name_faults(alloc, setup.seed, batch)?;
    refusals_of(alloc, &faults)
}

/// Lists the fault of a document that is refused as a whole, if all are listed. Returns the halt, or `OutOfMemory` if there is
/// no memory for the list.
pub(crate) fn noted(halt: Halt, all: bool, faults: &mut Vec<Refusal>) -> Halt
    requires { faults.old.items ≡ [] }
    ensures same { (result ≡ halt) ⊎ ((result ≡ halts.OutOfMemory) × (is_refused halt ≡ true)) }
    ensures listed { all ≡ true → Halted (λ refusal. map printed faults.new.items ≡ refusal ∷ []) result }
{
    match halt {
        Halt::Refused(refusal) if all => match faults.push(refusal) {
            Ok(()) => halt,
            Err(_) => Halt::OutOfMemory,
        },
        _ => halt,
    }
}

/// Returns the batch in a value, and lists the faults of shape of one that has some if all are listed.
pub(crate) fn batch_in<'a>(
    alloc: Global,
    value: &'a Value,
    all: bool,
    faults: &mut Vec<Refusal>,
) -> Result<Batch<'a>, Halt>
    ensures good { OnOk result (IsWellShaped (view value.now)) }
    ensures records { IfOk result (λ batch. IsBatchOf (view value.now) (records batch)) }
    ensures least { IfErr result (Halted (HasFault IsLeastFault document_row (view value.now))) }
    ensures listed { all ≡ true → IfErr result (Halted (λ _. AreFaultsOf (view value.now) (map printed faults.new.items))) }
    ensures read { result ≢ Err halts.Read }
{
    match Batch::read(alloc, value) {
        Ok(batch) => Ok(batch),
        Err(fault) => {
            let halt = Halt::from(fault);
            if all && halt.is_refused() {
                one_fault();
                *faults = shape_refusals(alloc, value)?;
            }
            Err(halt)
        }
    }
}

/// Returns the plan of a batch, and lists the faults of the names of one that has some if all are listed.
pub(crate) fn plan_in<'a: 'b, 'b>(
    alloc: Global,
    batch: &'b Batch<'a>,
    all: bool,
    setup: Setup,
    faults: &mut Vec<Refusal>,
) -> Result<DropOrLeak<Plan<'b>>, Halt>
    ensures good { OnOk result (HasGoodNames (records batch.now)) }
    ensures plan { IfOk result (λ plan. plan_records plan.value ≡ records batch.now) }
    ensures seed { IfOk result (λ plan. IsSeeded setup.seed.number plan.value) }
    ensures least { IfErr result (Halted (RefusesNamesOf (records batch.now))) }
    ensures listed { all ≡ true → IfErr result (Halted (λ _. AreNameFaultsOf (records batch.now) (map printed faults.new.items))) }
    ensures read { result ≢ Err halts.Read }
{
    match plan_of(alloc, batch, setup) {
        Ok(plan) => Ok(plan),
        Err(halt) => {
            if all {
                *faults = name_refusals(alloc, batch, setup)?;
            }
            Err(halt)
        }
    }
}

/// Returns the faults of a document that is refused.
fn list_of(halt: Halt, faults: Vec<Refusal>) -> Result<Vec<Refusal>, AllocError>
    ensures { IfOk result (λ found. (is_refused halt ≡ true) × (found ≡ faults)) }
{
    if halt.is_refused() {
        Ok(faults)
    } else {
        Err(AllocError)
    }
}

/// Returns all faults of a batch document in memory: those of the first phase that has any, which are the
/// document as a whole, its requests, ids and groups, and dependencies and references (OData JSON Format 4.01,
/// section 19.1).
///
/// They come in the order of position and number, each once. There are none if and only if the check accepts
/// the document; else the first of them is what the check reports.
///
/// Takes O(n log n) time and O(n) memory for a document of n bytes, and memory for the list.
///
/// # Errors
///
/// `AllocError` if an allocation fails.
pub fn faults_in(alloc: Global, document: &[u8], setup: Setup) -> Result<Vec<Refusal>, AllocError>
    ensures { IfOk result (λ found. AreFaultsIn document.now (map printed found.items)) }
{
    let mut faults = Vec::new(alloc);
    let value = match value_in(alloc, document, Place::Batch) {
        Ok(value) => value,
        Err(halt) => return list_of(noted(halt, true, &mut faults), faults),
    };
    let value = DropOrLeak {
        value,
        disposal: setup.disposal,
    };
    let batch = match batch_in(alloc, &value.value, true, &mut faults) {
        Ok(batch) => batch,
        Err(halt) => return list_of(halt, faults),
    };
    let batch = DropOrLeak {
        value: batch,
        disposal: setup.disposal,
    };
    name_refusals(alloc, &batch.value, setup)
}

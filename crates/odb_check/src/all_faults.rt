//! All faults of the names of a batch, in order.

ghost use Rattle.std.specs.Prelude.{◌≡◌, ◌↔◌, ◌<◌, ◌+◌, [], length, IfOk, IfSome, OnOk, slice_get};
ghost use Rattle.odb_doc.specs.AllFaults.{ListsAll};
ghost use Rattle.odb_doc.specs.batch.Batches.{records};
ghost use Rattle.odb_check.specs.AllNameFaults.{AreNameFaults, name_place};
ghost use Rattle.odb_check.specs.LeastNameFault.{HasGoodNames, RefusesNames};
ghost use Rattle.odb_check.specs.Marks.{AreUpTo};
ghost use Rattle.odb_check.specs.PhaseFaults.{IsPhaseFault, ListsPhase};
ghost use Rattle.odb_check.specs.Requests.{requests};
ghost use Rattle.odb_check.specs.Walks.{HasValidIds};

use crate::fault::CheckFault;
use crate::ids::{ID_RULES, breaks};
use crate::marks::Marks;
use crate::names::{DEPENDENCY_RULES, Resolved};
use crate::need::Need;
use crate::seed::Seed;
use crate::tables::{Tables, tables_of};
use crate::walk::resolve_names;
use odb_doc::Batch;
use std::alloc::{AllocError, Global};

/// Appends the faults of the id and the group of a request to those of the requests before it.
fn push_id_faults(
    tables: &Tables<'_>,
    i: u32,
    faults: &mut Vec<CheckFault>,
) -> Result<(), AllocError>
    requires position { i < length (requests tables.now) }
    requires before { ListsPhase 3 (requests tables.now) (i, 0) faults.old.items }
    ensures { OnOk result (ListsPhase 3 (requests tables.now) (i + 1, 0) faults.new.items) }
{
    for rule in ID_RULES {
        if breaks(tables, i, *rule) {
            let at = i as usize;
            faults.push(CheckFault::Broken { at, rule: *rule })?;
        }
    }
    Ok(())
}

/// Returns the faults of ids and groups.
fn id_faults(alloc: Global, tables: &Tables<'_>) -> Result<Vec<CheckFault>, AllocError>
    ensures { IfOk result (λ faults. ListsAll name_place (IsPhaseFault 3 (requests tables.now)) faults.items) }
{
    let mut faults = Vec::new(alloc);
    for i in 0..tables.len() {
        push_id_faults(tables, i, &mut faults)?;
    }
    Ok(faults)
}

/// Appends the faults of the dependencies and the reference of a request to those of the requests before
/// it. `row` and `marks` are room for what its names resolve to.
fn push_dependency_faults(
    tables: &Tables<'_>,
    i: u32,
    row: &mut Vec<Need>,
    marks: &mut Marks,
    faults: &mut Vec<CheckFault>,
) -> Result<(), AllocError>
    requires position { i < length (requests tables.now) }
    requires valid_ids { HasValidIds (requests tables.now) }
    requires marks { AreUpTo (requests tables.now) i marks.old.ones.items marks.old.groups.items }
    requires before { ListsPhase 4 (requests tables.now) (i, 0) faults.old.items }
    ensures marks { OnOk result (AreUpTo (requests tables.now) (i + 1) marks.new.ones.items
        marks.new.groups.items) }
    ensures lists { OnOk result (ListsPhase 4 (requests tables.now) (i + 1, 0) faults.new.items) }
{
    let has_unknown = resolve_names(tables, i, tables.names(i), row, marks)?;
    let request = Resolved {
        tables,
        i,
        named: row,
        marks,
    };
    for rule in DEPENDENCY_RULES {
        if request.breaks(has_unknown, *rule) {
            let at = i as usize;
            faults.push(CheckFault::Broken { at, rule: *rule })?;
        }
    }
    Ok(())
}

/// Returns the faults of dependencies and references.
fn dependency_faults(alloc: Global, tables: &Tables<'_>) -> Result<Vec<CheckFault>, AllocError>
    requires { HasValidIds (requests tables.now) }
    ensures { IfOk result (λ faults. ListsAll name_place (IsPhaseFault 4 (requests tables.now)) faults.items) }
{
    let mut marks = Marks::new(alloc, tables)?;
    let mut row = Vec::new(alloc);
    let mut faults = Vec::new(alloc);
    for i in 0..tables.len() {
        push_dependency_faults(tables, i, &mut row, &mut marks, &mut faults)?;
    }
    Ok(faults)
}

/// Returns the faults of names in the tables.
fn faults_in(alloc: Global, tables: &Tables<'_>) -> Result<Vec<CheckFault>, AllocError>
    ensures { IfOk result (λ faults. AreNameFaults (requests tables.now) faults.items) }
{
    let faults = id_faults(alloc, tables)?;
    if !faults.is_empty() {
        return Ok(faults);
    }
    dependency_faults(alloc, tables)
}

/// Returns all faults of the names of a batch: those of ids and groups, F30 to F32, if there are any, and
/// else those of dependencies and references, F40 to F46 (OData JSON Format 4.01, sections 19.1 and 19.2).
///
/// They come in the order of position and number, each once. There are none if and only if
/// [`check_with`](crate::check_with) accepts the batch; else the first of them is what it reports.
///
/// `alloc` is asked for the tables of identifiers, groups and units, for the names of one request, and for
/// the list. The seed serves as in [`check_with`](crate::check_with): the answer does not depend on it.
///
/// # Errors
///
/// If an allocation fails.
pub fn name_faults<'a: 'b, 'b>(
    alloc: Global,
    seed: Seed,
    batch: &'b Batch<'a>,
) -> Result<Vec<CheckFault>, AllocError>
    ensures all { IfOk result (λ faults. AreNameFaults (records batch.now) faults.items) }
    ensures none { IfOk result (λ faults. (faults.items ≡ []) ↔ HasGoodNames (records batch.now)) }
    ensures first { IfOk result (λ faults. IfSome (slice_get faults.items 0) (λ fault. RefusesNames fault (records batch.now))) }
{
    let tables = tables_of(alloc, seed, batch)?;
    faults_in(alloc, &tables)
}

//! The check of a batch: its plan, or the first fault of its names.

ghost use Rattle.std.specs.Prelude.{◌≡◌, length, None, OnOk, IfOk, IfErr};
ghost use Rattle.odb_doc.specs.batch.Batches.{records};
ghost use Rattle.odb_check.specs.LeastNameFault.{HasGoodNames, RefusesNames};
ghost use Rattle.odb_check.specs.Levels.{levels_below};
ghost use Rattle.odb_check.specs.Needs.{needs_of_each};
ghost use Rattle.odb_check.specs.Plans.{plan_records};
ghost use Rattle.odb_check.specs.Requests.{requests};
ghost use Rattle.odb_check.specs.Seeds.{IsSeeded};

use crate::fault::CheckFault;
use crate::ids::check_ids;
use crate::levels::levels_of;
use crate::need::Need;
use crate::plan::Plan;
use crate::seed::Seed;
use crate::tables::{Tables, tables_of};
use crate::walk::all_needs;
use odb_dense::Rows;
use odb_doc::Batch;
use std::alloc::Global;

/// The needs and the levels of a batch whose names fit together.
fn needs_and_levels(
    alloc: Global,
    tables: &Tables<'_>,
) -> Result<(Rows<Need>, Vec<u32>), CheckFault>
    ensures good { OnOk result (HasGoodNames (requests tables.now)) }
    ensures needs { IfOk result (λ found. found.0 ≡ needs_of_each (requests tables.now)) }
    ensures levels { IfOk result (λ found. found.1.items
        ≡ levels_below (requests tables.now) (length (requests tables.now))) }
    ensures least { IfErr result (λ fault. RefusesNames fault (requests tables.now)) }
{
    check_ids(tables)?;
    let needs = all_needs(alloc, tables)?;
    let levels = levels_of(alloc, tables, &needs)?;
    Ok((needs, levels))
}

/// Returns the plan of a batch whose names fit together (OData JSON Format 4.01, sections 19.1 and
/// 19.2).
///
/// The plan borrows from `batch`. `alloc` is asked for the tables of identifiers, groups and units,
/// and for needs and levels.
///
/// With a seed that is drawn at random and kept secret ([`Seed::random`]) a look-up of a name takes
/// O(1), and nobody can choose names that make it slow: this is the call for a gateway, which checks
/// what strangers send. The answer does not depend on the seed.
///
/// Example: `respond` in crates/odb_tests_engine/src/examples.rt.
///
/// # Errors
///
/// The least of the faults F30 to F32 and F40 to F46 by phase, position and number, if there is one;
/// `OutOfMemory` if an allocation fails.
pub fn check_with<'a: 'b, 'b>(
    alloc: Global,
    seed: Seed,
    batch: &'b Batch<'a>,
) -> Result<Plan<'b>, CheckFault>
    ensures good { OnOk result (HasGoodNames (records batch.now)) }
    ensures plan { IfOk result (λ plan. plan_records plan ≡ records batch.now) }
    ensures seed { IfOk result (λ plan. IsSeeded seed.number plan) }
    ensures least { IfErr result (λ fault. RefusesNames fault (records batch.now)) }
{
    let tables = tables_of(alloc, seed, batch)?;
    let (needs, levels) = needs_and_levels(alloc, &tables)?;
    Ok(Plan {
        tables,
        needs,
        levels,
    })
}

/// Returns the plan of a batch, as [`check_with`] does, without a seed.
///
/// A look-up among n names takes O(log n), whatever the names: no batch can make this call slow. If a
/// random seed is available, [`check_with`] is faster.
///
/// Example: `plan_text_of` in crates/odb_tests_text/src/laws/texts.rt.
///
/// # Errors
///
/// Those of [`check_with`].
pub fn check<'a: 'b, 'b>(alloc: Global, batch: &'b Batch<'a>) -> Result<Plan<'b>, CheckFault>
    ensures good { OnOk result (HasGoodNames (records batch.now)) }
    ensures plan { IfOk result (λ plan. plan_records plan ≡ records batch.now) }
    ensures seed { IfOk result (λ plan. IsSeeded None plan) }
    ensures least { IfErr result (λ fault. RefusesNames fault (records batch.now)) }
{
    check_with(alloc, Seed::none(), batch)
}

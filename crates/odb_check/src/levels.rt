//! The level of each unit: one more than the greatest level that it needs.

ghost use Rattle.std.specs.Prelude.{◌≡◌, ◌≤◌, ◌<◌, ◌+◌, ℕ, length, slice_index, All, IfOk};
ghost use Rattle.odb_check.specs.LeastNameFault.{HasGoodNames};
ghost use Rattle.odb_check.specs.Levels.{level_needed, levels_below, next_level};
ghost use Rattle.odb_check.specs.Needs.{needs_of_each};
ghost use Rattle.odb_check.specs.Requests.{requests};
ghost use Rattle.odb_check.specs.PlanGraph.{IsNeedAmong};

use crate::need::Need;
use crate::tables::Tables;
use odb_dense::Rows;
use std::alloc::{AllocError, Global};

/// The level of what is needed.
fn level_needed(need: Need, levels: &[u32], unit_levels: &[u32]) -> u32
    requires { IsNeedAmong (length levels.now) (length unit_levels.now) need }
    ensures { result ≡ level_needed (slice_index levels.now) (slice_index unit_levels.now) need }
{
    match need {
        Need::One(position) => levels[position as usize],
        Need::Group(unit) => unit_levels[unit as usize],
    }
}

/// The level of a request with these needs: one above the highest level among them, and 0 if there are
/// none.
fn next_level(needs: &[Need], levels: &[u32], unit_levels: &[u32]) -> u32
    requires within { All (IsNeedAmong (length levels.now) (length unit_levels.now)) needs.now }
    requires low { (k : ℕ) → slice_index levels.now k ≤ 10000 }
    requires unit_low { (u : ℕ) → slice_index unit_levels.now u ≤ 10000 }
    ensures { result ≡ next_level (slice_index levels.now) (slice_index unit_levels.now)
        needs.now }
{
    let mut level: u32 = 0;
    for need in needs {
        level = level.max(level_needed(*need, levels, unit_levels) + 1);
    }
    level
}

/// The level of each request: the length of its longest chain of needs.
pub(crate) fn levels_of(
    alloc: Global,
    tables: &Tables<'_>,
    needs: &Rows<Need>,
) -> Result<Vec<u32>, AllocError>
    requires good { HasGoodNames (requests tables.now) }
    requires needs { needs.now ≡ needs_of_each (requests tables.now) }
    ensures { IfOk result (λ levels. levels.items
        ≡ levels_below (requests tables.now) (length (requests tables.now))) }
{
    let mut levels = Vec::with_capacity(alloc, tables.len() as usize)?;
    let mut unit_levels = vec![in alloc; 0_u32; tables.unit_count() as usize]?;
    for i in 0..tables.len() {
        let level = next_level(needs.row(i), &levels, &unit_levels);
        levels.push(level)?;
        let unit = tables.unit_of(i) as usize;
        unit_levels[unit] = unit_levels[unit].max(level);
    }
    Ok(levels)
}

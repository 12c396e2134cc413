//! The rows in which the requests of each level are drawn.

ghost use Rattle.std.specs.Prelude.{◌≡◌, ◌<◌, ◌≤◌, ◌+◌, IfOk, length};
ghost use Rattle.odb_check.specs.Firsts.{list_below};
ghost use Rattle.odb_check.specs.Plans.{plan_records, plan_graph};
ghost use Rattle.odb_text.specs.Drawings as drawings;
ghost use Rattle.odb_text.specs.Rows as rows;

use odb_check::Plan;
use odb_check::laws::every_plan;
use std::alloc::{AllocError, Global};

/// The last row of a level, so far.
#[derive(Clone, Copy)]
pub(crate) struct Row {
    /// Its number in the level, from 0.
    pub(crate) number: u32,
    /// How many requests are in it.
    pub(crate) used: u32,
}

/// The rows of a plan.
#[derive(Drop)]
pub(crate) struct Rows {
    /// The row of each request in its level, from 0.
    pub(crate) of_requests: Vec<u32>,
    /// The last row of each level.
    pub(crate) of_levels: Vec<Row>,
}

/// Returns the first request of a unit.
pub(crate) fn first_of_unit(plan: &Plan<'_>, unit: u32) -> u32
    requires { unit < (plan_graph plan.now).unit_count }
    ensures { result ≡ rows.first_of_unit (plan_records plan.now) unit }
{
    every_plan(plan);
    plan.members(unit).start
}

/// Returns whether a unit has no place in a row with so many requests.
fn has_no_place(plan: &Plan<'_>, unit: u32, used: u32) -> bool
    requires unit { unit < (plan_graph plan.now).unit_count }
    requires used { used ≤ 10000 }
    ensures { result ≡ rows.has_no_place (plan_records plan.now) unit used }
{
    used + plan.unit_size(unit) > 12 || plan.unit_size(unit.saturating_sub(1)) > 12
}

/// Returns whether a request begins a row, after a row with so many requests.
fn begins_row(plan: &Plan<'_>, i: u32, used: u32) -> bool
    requires within { i < length (plan_records plan.now) }
    requires used { used ≤ 10000 }
    ensures { result ≡ rows.begins_row (plan_records plan.now) i used }
{
    if used == 0 {
        return false;
    }
    let _count = plan.len();
    let unit = plan.unit_of(i);
    used == 12 || (first_of_unit(plan, unit) == i && has_no_place(plan, unit, used))
}

/// Returns the last row of a level with one more request.
fn next_row(plan: &Plan<'_>, i: u32, row: Row) -> Row
    requires within { i < length (plan_records plan.now) }
    requires number { row.number ≤ 10000 }
    requires used { row.used ≤ 10000 }
    ensures { result ≡ rows.next_row (plan_records plan.now) i row }
{
    if begins_row(plan, i, row.used) {
        Row {
            number: row.number + 1,
            used: 1,
        }
    } else {
        Row {
            number: row.number,
            used: row.used + 1,
        }
    }
}

/// Returns the rows of a plan, whose levels go up to `greatest`.
pub(crate) fn rows_of(alloc: Global, plan: &Plan<'_>, greatest: u32) -> Result<Rows, AllocError>
    requires { greatest ≡ drawings.greatest_level (plan_records plan.now) }
    ensures requests { IfOk result (λ it. it.of_requests.items
        ≡ list_below (length (plan_records plan.now)) (rows.row_at (plan_records plan.now))) }
    ensures levels { IfOk result (λ it. length it.of_levels.items ≡ greatest + 1) }
    ensures ends { IfOk result (λ it. rows.AreEnds (plan_records plan.now) it.of_levels.items) }
{
    let first = Row { number: 0, used: 0 };
    let mut of_levels = vec![in alloc; first; greatest as usize + 1]?;
    let mut of_requests = Vec::new(alloc);
    for i in 0..plan.len() {
        let level = plan.level(i) as usize;
        let row = next_row(plan, i, of_levels[level]);
        of_levels[level] = row;
        of_requests.push(row.number)?;
    }
    Ok(Rows {
        of_requests,
        of_levels,
    })
}

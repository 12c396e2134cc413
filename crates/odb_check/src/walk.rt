//! The walk over all requests that looks up what each names, and stops at the first fault.

ghost use Rattle.std.specs.Prelude.{◌≡◌, ◌↔◌, ◌<◌, ◌+◌, length, IsTrue, OnOk, IfOk, IfErr};
ghost use Rattle.odb_doc.specs.Names.{texts_in};
ghost use Rattle.odb_check.specs.LeastNameFault.{HasGoodNames, RefusesNames};
ghost use Rattle.odb_check.specs.Marks.{AreMarksOf, AreUpTo};
ghost use Rattle.odb_check.specs.NameFaults.{IsBrokenAt};
ghost use Rattle.odb_check.specs.Needs.{needs_at, needs_of_each};
ghost use Rattle.odb_check.specs.Positions.{names_at};
ghost use Rattle.odb_check.specs.Requests.{requests};
ghost use Rattle.odb_check.specs.Walks.{BreaksNone, FailsAt, HasValidIds, named_at};
ghost use Rattle.odb_check.specs.declared.fault.NameRule.TheVariants as rules;

use crate::fault::CheckFault;
use crate::marks::Marks;
use crate::names::Resolved;
use crate::need::Need;
use crate::tables::Tables;
use odb_dense::Rows;
use std::alloc::{AllocError, Global};

/// Makes `row` what the names of the request at `i` resolve to, marks it, and returns whether one of
/// them resolves to nothing (F40).
///
/// Clients often list the requests just before, or some in a row, so each name is guessed: the first as
/// that of a request just before, and each further one as the id after the one before it.
#[inline(always)]
pub(crate) fn resolve_names(
    tables: &Tables<'_>,
    i: u32,
    names: &[&str],
    row: &mut Vec<Need>,
    marks: &mut Marks,
) -> Result<bool, AllocError>
    requires position { i < length (requests tables.now) }
    requires valid_ids { HasValidIds (requests tables.now) }
    requires names { texts_in names.now ≡ names_at (requests tables.now) i }
    requires marks { AreUpTo (requests tables.now) i marks.old.ones.items marks.old.groups.items }
    ensures unknown { IfOk result (λ has_unknown. IsTrue has_unknown
        ↔ IsBrokenAt rules.UnknownName (requests tables.now) i) }
    ensures row { OnOk result (row.new.items ≡ named_at (requests tables.now) i) }
    ensures marked { OnOk result (AreMarksOf (requests tables.now) (named_at (requests tables.now) i)
        (i + 1) marks.new.ones.items marks.new.groups.items) }
{
    row.clear();
    let mut guess = (i as usize).saturating_sub(names.len()) as u32;
    let mut has_unknown = false;
    for name in names {
        let Some(need) = tables.need_near(guess, name) else {
            has_unknown = true;
            continue;
        };
        marks.mark(need, i + 1);
        row.push(need)?;
        if let Need::One(position) = need {
            guess = position.saturating_add(1);
        }
    }
    Ok(has_unknown)
}

/// Makes `row` the needs of the request at `i`, or reports the first rule on names and references that
/// it breaks.
#[tactic(auto, using(crate::proofs::WalkLemmas::needs_are))]
fn resolve_needs(
    tables: &Tables<'_>,
    i: u32,
    row: &mut Vec<Need>,
    marks: &mut Marks,
) -> Result<(), CheckFault>
    requires position { i < length (requests tables.now) }
    requires valid_ids { HasValidIds (requests tables.now) }
    requires marks { AreUpTo (requests tables.now) i marks.old.ones.items marks.old.groups.items }
    ensures none { OnOk result (BreaksNone 4 (requests tables.now) i) }
    ensures needs { OnOk result (row.new.items ≡ needs_at (requests tables.now) i) }
    ensures marks { OnOk result (AreUpTo (requests tables.now) (i + 1) marks.new.ones.items
        marks.new.groups.items) }
    ensures least { IfErr result (FailsAt 4 (requests tables.now) i) }
{
    let has_unknown = resolve_names(tables, i, tables.names(i), row, marks)?;
    let resolved = Resolved {
        tables,
        i,
        named: row,
        marks,
    };
    if let Some(rule) = resolved.broken_rule(has_unknown) {
        let at = i as usize;
        return Err(CheckFault::Broken { at, rule });
    }
    if let Some(need) = resolved.further_need() {
        row.push(need)?;
    }
    Ok(())
}

/// The needs of the requests, or the first of them that breaks a rule on names and references.
pub(crate) fn all_needs(alloc: Global, tables: &Tables<'_>) -> Result<Rows<Need>, CheckFault>
    requires { HasValidIds (requests tables.now) }
    ensures good { OnOk result (HasGoodNames (requests tables.now)) }
    ensures needs { IfOk result (λ needs. needs ≡ needs_of_each (requests tables.now)) }
    ensures least { IfErr result (λ fault. RefusesNames fault (requests tables.now)) }
{
    let mut marks = Marks::new(alloc, tables)?;
    let mut needs = Rows::new(alloc);
    let mut row = Vec::new(alloc);
    for i in 0..tables.len() {
        resolve_needs(tables, i, &mut row, &mut marks)?;
        needs.push(&row)?;
    }
    Ok(needs)
}

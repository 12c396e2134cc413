//! The rules of ids and groups: F30, F31 and F32.

ghost use Rattle.std.specs.Prelude.{IsTrue, ◌↔◌, ◌≡◌, ◌<◌, false, length, IsSome, IfNone, IfSome, OnOk, IfErr};
ghost use Rattle.odb_check.specs.FaultTable.{check_row};
ghost use Rattle.odb_check.specs.LeastNameFault.{RefusesNames};
ghost use Rattle.odb_check.specs.NameFaults.{IsBrokenAt};
ghost use Rattle.odb_check.specs.Requests.{requests};
ghost use Rattle.odb_check.specs.Walks.{BreaksFirst, BreaksIn, BreaksNone, HasValidIds};
ghost use Rattle.odb_check.specs.declared.fault.NameRule.TheVariants as rules;

use crate::fault::{CheckFault, NameRule};
use crate::tables::Tables;

/// The rules of ids and groups, by number.
pub(crate) const ID_RULES: &'static [NameRule] = &[
    NameRule::IdTwice,
    NameRule::IdIsGroup,
    NameRule::GroupSplit,
];

/// F30: whether an earlier request has the same identifier.
fn repeats_id(tables: &Tables<'_>, i: u32) -> bool
    requires { i < length (requests tables.now) }
    ensures { IsTrue result ↔ IsBrokenAt rules.IdTwice (requests tables.now) i }
{
    if !tables.has_repeated_id() {
        return false;
    }
    match tables.position_of(tables.id(i)) {
        Some(first) => first < i,
        None => false,
    }
}

/// F31: whether the identifier is a group.
fn has_id_of_group(tables: &Tables<'_>, i: u32) -> bool
    requires { i < length (requests tables.now) }
    ensures { IsTrue result ↔ IsBrokenAt rules.IdIsGroup (requests tables.now) i }
{
    if tables.group_count() == 0 {
        return false;
    }
    tables.unit_of_group(tables.id(i)).is_some()
}

/// F32: whether the group of the request is that of earlier ones, but not of the one just before.
fn splits_group(tables: &Tables<'_>, i: u32) -> bool
    requires { i < length (requests tables.now) }
    ensures { IsTrue result ↔ IsBrokenAt rules.GroupSplit (requests tables.now) i }
{
    tables.begin_of(i) < i && tables.unit_of(i - 1) != tables.unit_of(i)
}

/// Whether the request breaks the rule on identifiers and groups.
pub(crate) fn breaks(tables: &Tables<'_>, i: u32, rule: NameRule) -> bool
    requires { i < length (requests tables.now) }
    ensures { IsTrue result ↔ BreaksIn 3 (requests tables.now) rule i }
{
    match rule {
        NameRule::IdTwice => repeats_id(tables, i),
        NameRule::IdIsGroup => has_id_of_group(tables, i),
        NameRule::GroupSplit => splits_group(tables, i),
        _ => false,
    }
}

/// Whether the request breaks one of the rules on identifiers and groups.
fn breaks_any(tables: &Tables<'_>, i: u32) -> bool
    requires { i < length (requests tables.now) }
    ensures { result ≡ false → BreaksNone 3 (requests tables.now) i }
{
    repeats_id(tables, i) || has_id_of_group(tables, i) || splits_group(tables, i)
}

/// The first rule on identifiers and groups that the request breaks.
fn broken_rule(tables: &Tables<'_>, i: u32) -> Option<NameRule>
    requires { i < length (requests tables.now) }
    ensures some { IfSome result (BreaksFirst 3 (requests tables.now) i) }
    ensures none { IfNone result (BreaksNone 3 (requests tables.now) i) }
{
    if !breaks_any(tables, i) {
        return None;
    }
    for rule in ID_RULES {
        if breaks(tables, i, *rule) {
            return Some(*rule);
        }
    }
    None
}

/// Looks for the first request whose identifier or group breaks a rule.
pub(crate) fn check_ids(tables: &Tables<'_>) -> Result<(), CheckFault>
    ensures valid_ids { OnOk result (HasValidIds (requests tables.now)) }
    ensures least { IfErr result (λ fault. RefusesNames fault (requests tables.now)) }
    ensures numbered { IfErr result (λ fault. IsSome (check_row fault)) }
{
    for i in 0..tables.len() {
        if let Some(rule) = broken_rule(tables, i) {
            let at = i as usize;
            return Err(CheckFault::Broken { at, rule });
        }
    }
    Ok(())
}

//! The names in `dependsOn` that are in the rest.

ghost use Rattle.std.specs.Prelude.{◌≡◌, ◌<◌, ◌++◌, codes, length, string_bytes, IfOk, OnOk};
ghost use Rattle.std.specs.List.{filter};
ghost use Rattle.odb_check.specs.Plans.{plan_records};
ghost use Rattle.odb_check.specs.Positions.{names_at};
ghost use Rattle.odb_check.specs.Units as all;
ghost use Rattle.odb_doc.specs.canonical.Canonical.{names_value};
ghost use Rattle.odb_doc.specs.Names.{texts_in};
ghost use Rattle.odb_doc.specs.Texts.{member_part};
ghost use Rattle.odb_send.specs.Rests.{is_kept_name};

use crate::units::is_marked;
use odb_check::Plan;
use odb_doc::text::push_names;
use std::alloc::{AllocError, Global};

/// Returns the names in `dependsOn` of request `i` that are in the rest.
fn kept_names<'b>(
    alloc: Global,
    plan: &Plan<'b>,
    kept: &[bool],
    i: u32,
) -> Result<Vec<&'b str>, AllocError>
    requires request { i < length (plan_records plan.now) }
    requires count { length kept.now ≡ all.unit_count (plan_records plan.now) }
    ensures { IfOk result (λ found. texts_in found.items
        ≡ filter (is_kept_name (plan_records plan.now) kept.now) (names_at (plan_records plan.now) i)) }
{
    odb_check::laws::every_plan(plan);
    let names = plan.request(i).names.as_slice();
    let needs = plan.needs(i);
    let mut found = Vec::new(alloc);
    for k in 0..names.len() {
        if is_marked(plan, kept, needs[k]) {
            found.push(names[k])?;
        }
    }
    Ok(found)
}

/// Appends the member `dependsOn` of request `i` as the rest has it.
pub(crate) fn push_kept_names(
    alloc: Global,
    text: &mut String,
    plan: &Plan<'_>,
    kept: &[bool],
    i: u32,
) -> Result<(), AllocError>
    requires request { i < length (plan_records plan.now) }
    requires count { length kept.now ≡ all.unit_count (plan_records plan.now) }
    ensures { OnOk result (string_bytes text.new ≡ string_bytes text.old
        ++ member_part (codes "\"dependsOn\":") (names_value
        (filter (is_kept_name (plan_records plan.now) kept.now) (names_at (plan_records plan.now) i)))) }
{
    let names = kept_names(alloc, plan, kept, i)?;
    push_names(alloc, text, &names)
}

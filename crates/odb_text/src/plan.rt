//! A plan as one line of compact JSON.

ghost use Rattle.std.specs.Prelude.{◌≡◌, ◌<◌, ◌+◌, ◌++◌, codes, false, length, map, nat_lt, drop, option_copied, All, Some, IfOk, OnOk, string_bytes};
ghost use Rattle.serde_json.specs.Data.{string};
ghost use Rattle.serde_json.specs.View.{items_of};
ghost use Rattle.serde_json.specs.Written.{items_text};
ghost use Rattle.odb_check.specs.Plans.{plan_records, plan_graph};
ghost use Rattle.odb_check.specs.PlanGraph.{IsNeed};
ghost use Rattle.odb_text.specs.Results.{json_line, need_values, plan_value, planned};
ghost use Rattle.odb_text.specs.ResultParts.{element, group_part, id_part};

use crate::results::push_string;
use odb_check::{Need, Plan};
use odb_doc::text::{push_if, push_open, push_quoted};
use std::alloc::{AllocError, Global};
use std::fmt::Write;

/// Appends the names of what is needed as the elements of an array, and the end of the array.
pub(crate) fn push_needs(
    alloc: Global,
    text: &mut String,
    plan: &Plan<'_>,
    needs: &[Need],
) -> Result<(), AllocError>
    requires { All (IsNeed (plan_graph plan.now)) needs.now }
    ensures { OnOk result (string_bytes text.new ≡ string_bytes text.old
        ++ items_text false (items_of (need_values (plan_records plan.now) needs.now))) }
{
    for k in 0..needs.len() {
        push_if(text, k > 0, ",")?;
        push_quoted(alloc, text, plan.name_of(needs[k]))?;
    }
    text.push_str("]")
}

/// Appends the member `group`, if there is a group.
pub(crate) fn push_group(
    alloc: Global,
    text: &mut String,
    group: Option<&str>,
) -> Result<(), AllocError>
    ensures { OnOk result (string_bytes text.new ≡ string_bytes text.old
        ++ group_part (option_copied group.entry)) }
{
    match group {
        Some(name) => {
            push_string(alloc, text, "\"group\":", name)?;
            text.push_str(",")
        }
        None => Ok(()),
    }
}

/// Appends the members `id` and `level`.
pub(crate) fn push_id(
    alloc: Global,
    text: &mut String,
    id: &str,
    level: u32,
) -> Result<(), AllocError>
    ensures { OnOk result (string_bytes text.new ≡ string_bytes text.old ++ id_part id.now level) }
{
    push_string(alloc, text, "\"id\":", id)?;
    write!(text, ",\"level\":{level},").map_err(|_| AllocError)
}

/// Appends request `i`, with a comma first unless it is the first request.
fn push_planned(alloc: Global, text: &mut String, plan: &Plan<'_>, i: u32) -> Result<(), AllocError>
    requires { i < length (plan_records plan.now) }
    ensures { OnOk result (string_bytes text.new ≡ string_bytes text.old
        ++ element (planned (plan_records plan.now)) i) }
{
    let _count = plan.len();
    let request = plan.request(i);
    push_open(text, i > 0)?;
    push_group(alloc, text, request.group)?;
    push_id(alloc, text, request.id, plan.level(i))?;
    text.push_str("\"needs\":[")?;
    push_needs(alloc, text, plan, plan.needs(i))?;
    text.push_str("}")
}

/// Returns a plan as a line of JSON: `{"requests":[..]}`, for each request its group if it has one, its id, its
/// level, and the names of its dependencies.
///
/// Takes O(n) time for a text of n bytes.
///
/// # Errors
///
/// `AllocError` if an allocation fails.
pub fn plan_json(alloc: Global, plan: &Plan<'_>) -> Result<String, AllocError>
    ensures { IfOk result (λ text. string_bytes text
        ≡ json_line (plan_value (plan_records plan.now))) }
{
    let mut text = String::from_str(alloc, "{\"requests\":[")?;
    for i in 0..plan.len() {
        push_planned(alloc, &mut text, plan, i)?;
    }
    text.push_str("]}\n")?;
    Ok(text)
}

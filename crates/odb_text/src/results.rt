//! The results of check and match as one line of compact JSON.

ghost use Rattle.std.specs.Prelude.{◌≡◌, ◌<◌, ◌++◌, length, IfOk, OnOk, string_bytes};
ghost use Rattle.odb_check.specs.Plans.{plan_records};
ghost use Rattle.odb_text.specs.Results.{json_line, counts_value, match_value, matched};
ghost use Rattle.odb_text.specs.ResultParts.{element, string_part};

use odb_check::Plan;
use odb_doc::text::{push_if, push_quoted};
use std::alloc::{AllocError, Global};
use std::fmt::Write;

/// Appends a piece, and then the JSON text of a string.
pub(crate) fn push_string(
    alloc: Global,
    text: &mut String,
    piece: &str,
    value: &str,
) -> Result<(), AllocError>
    ensures { OnOk result (string_bytes text.new
        ≡ string_bytes text.old ++ string_part piece.now value.now) }
{
    text.push_str(piece)?;
    push_quoted(alloc, text, value)
}

/// Returns the counts of a batch that the check accepts as a line of JSON: `{"groups":M,"requests":N}`.
///
/// # Errors
///
/// `AllocError` if an allocation fails.
pub fn counts_json(alloc: Global, requests: u32, groups: u32) -> Result<String, AllocError>
    ensures { IfOk result (λ line. string_bytes line ≡ json_line (counts_value requests groups)) }
{
    format!(in alloc; "{{\"groups\":{groups},\"requests\":{requests}}}\n")
}

/// Appends request `i` with its status, with a comma first unless it is the first request.
fn push_matched(
    alloc: Global,
    text: &mut String,
    plan: &Plan<'_>,
    statuses: &[u16],
    i: u32,
) -> Result<(), AllocError>
    requires within { i < length (plan_records plan.now) }
    requires statuses { length statuses.now ≡ length (plan_records plan.now) }
    ensures { OnOk result (string_bytes text.new ≡ string_bytes text.old
        ++ element (matched (plan_records plan.now) statuses.now) i) }
{
    push_if(text, i > 0, ",")?;
    push_string(alloc, text, "{\"id\":", plan.request(i).id)?;
    let status = statuses[i as usize];
    write!(text, ",\"status\":{status}}}").map_err(|_| AllocError)
}

/// Returns the status of each request as a line of JSON: `{"responses":[{"id":ID,"status":STATUS},..]}`, in the
/// order of the batch. `statuses` has the status of each request.
///
/// Takes O(n) time for a text of n bytes.
///
/// # Errors
///
/// `AllocError` if an allocation fails.
pub fn match_json(alloc: Global, plan: &Plan<'_>, statuses: &[u16]) -> Result<String, AllocError>
    requires { length statuses.now ≡ length (plan_records plan.now) }
    ensures { IfOk result (λ text. string_bytes text
        ≡ json_line (match_value (plan_records plan.now) statuses.now)) }
{
    let mut text = String::from_str(alloc, "{\"responses\":[")?;
    for i in 0..plan.len() {
        push_matched(alloc, &mut text, plan, statuses, i)?;
    }
    text.push_str("]}\n")?;
    Ok(text)
}

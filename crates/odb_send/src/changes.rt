//! What changes of a request in the rest: its URL, and its conditions.

ghost use Rattle.std.specs.Prelude.{◌≡◌, ◌<◌, true, length, IfOk, IfErr, option_map, string_bytes};
ghost use Rattle.std.specs.Str.{str_to_ascii_lowercase};
ghost use Rattle.odb_check.specs.Plans.{plan_records};
ghost use Rattle.odb_check.specs.Units as all;
ghost use Rattle.odb_send.specs.Answers.{answers_in};
ghost use Rattle.odb_send.specs.Faults.{LacksTag};
ghost use Rattle.odb_send.specs.Marks.{IsBroken, IsLacking};
ghost use Rattle.odb_send.specs.Rests as rests;
ghost use Rattle.odb_send.specs.declared.fault.RestRule.TheVariants.{NoETag};

use crate::answers::Recorded;
use crate::fault::{RestFault, RestRule};
use crate::urls::{if_left, is_kept, url_of};
use odb_check::Plan;
use std::alloc::Global;

/// What changes of a request in the rest.
#[derive(Drop)]
pub(crate) struct Change {
    /// The URL.
    pub(crate) url: Option<String>,
    /// The value of `If-Match`.
    pub(crate) if_match: Option<String>,
    /// The value of `If-None-Match`.
    pub(crate) if_none_match: Option<String>,
}

/// Returns the id in the value of a condition, which follows `$`.
fn tag_id(value: &str) -> Option<&str>
    ensures { option_map (λ id. id.now) result ≡ rests.tag_id value.now }
{
    value.strip_prefix('$')
}

/// Returns the position of the earlier request whose ETag the header with this name of request `i` refers to (OData JSON
/// Format 4.01, section 19.3).
fn tagged(plan: &Plan<'_>, name: &str, i: u32) -> Option<u32>
    requires { i < length (plan_records plan.now) }
    ensures { result ≡ rests.tagged_at (plan_records plan.now) (str_to_ascii_lowercase name.now) i }
{
    let value = plan.request(i).headers.get(name)?;
    let p = plan.position_of(tag_id(value)?)?;
    if p < i { Some(p) } else { None }
}

/// Returns the value that the header with this name of request `i` of the rest gets, `None` if it stays, or F91 if no ETag is
/// recorded.
fn tag_of(
    alloc: Global,
    plan: &Plan<'_>,
    kept: &[bool],
    answers: &[Recorded<'_>],
    name: &str,
    i: u32,
) -> Result<Option<String>, RestFault>
    requires request { i < length (plan_records plan.now) }
    requires count { length kept.now ≡ all.unit_count (plan_records plan.now) }
    requires stays { rests.is_kept (plan_records plan.now) kept.now i ≡ true }
    requires answers { length answers.now ≡ length (plan_records plan.now) }
    ensures tag { IfOk result (λ tag. rests.IsTag (plan_records plan.now) kept.now (answers_in answers.now)
        (str_to_ascii_lowercase name.now) i (option_map string_bytes tag)) }
    ensures lacks { IfErr result (IsLacking NoETag (LacksTag (plan_records plan.now) kept.now
        (answers_in answers.now) (str_to_ascii_lowercase name.now)) i) }
{
    let Some(p) = if_left(plan, kept, tagged(plan, name, i)) else {
        return Ok(None);
    };
    let Some(etag) = answers[p as usize].etag else {
        return Err(RestFault::Broken {
            at: i as usize,
            rule: RestRule::NoETag,
        });
    };
    Ok(Some(String::from_str(alloc, etag)?))
}

/// Returns what changes of request `i` in the rest; F90 or F91 if something of it lacks a Location or an ETag.
pub(crate) fn change_of(
    alloc: Global,
    plan: &Plan<'_>,
    kept: &[bool],
    answers: &[Recorded<'_>],
    i: u32,
) -> Result<Change, RestFault>
    requires request { i < length (plan_records plan.now) }
    requires count { length kept.now ≡ all.unit_count (plan_records plan.now) }
    requires answers { length answers.now ≡ length (plan_records plan.now) }
    ensures change { IfOk result (λ change. rests.IsChange (plan_records plan.now) kept.now
        (answers_in answers.now) i (rests.change_of change)) }
    ensures broken { IfErr result (IsBroken (plan_records plan.now) kept.now (answers_in answers.now) i) }
{
    if !is_kept(plan, kept, i) {
        return Ok(Change {
            url: None,
            if_match: None,
            if_none_match: None,
        });
    }
    let url = url_of(alloc, plan, kept, answers, i)?;
    let if_match = tag_of(alloc, plan, kept, answers, "if-match", i)?;
    let if_none_match = tag_of(alloc, plan, kept, answers, "if-none-match", i)?;
    Ok(Change {
        url,
        if_match,
        if_none_match,
    })
}

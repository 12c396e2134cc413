//! The URLs of requests whose URL refers to a request that is not in the rest.

ghost use Rattle.std.specs.Prelude.{◌≡◌, ◌≢◌, ◌<◌, ◌↔◌, ℕ, [], true, length, Err, IsTrue, IfOk, IfErr, IfSome, MatchOption, Option, None, option_map, string_bytes};
ghost use Rattle.odb_send.specs.Answers.{answers_in};
ghost use Rattle.odb_send.specs.Faults.{LacksLocation};
ghost use Rattle.odb_send.specs.Marks.{IsLacking};
ghost use Rattle.odb_doc.specs.declared.rule_fault.RuleFault.TheVariants as faults;
ghost use Rattle.odb_send.specs.declared.fault.RestRule.TheVariants.{NoLocation};
ghost use Rattle.odb_check.specs.Plans.{plan_records};
ghost use Rattle.odb_check.specs.Units as all;
ghost use Rattle.odb_send.specs.Rests as rests;

use crate::answers::Recorded;
use crate::fault::{RestFault, RestRule};
use odb_check::Plan;
use odb_names::{Front, after_first_segment, front, is_nested_batch};
use std::alloc::{AllocError, Global};

/// Returns the Location, and what follows the first segment of the URL.
fn joined(alloc: Global, location: &str, url: &str) -> Result<String, AllocError>
    ensures { IfOk result (λ made. rests.IsJoined location.now url.now (string_bytes made)) }
{
    let after = after_first_segment(url).len();
    let (_, rest) = url.split_at(url.len() - after);
    let mut made = String::from_str(alloc, location)?;
    made.push_str(rest)?;
    Ok(made)
}

/// Returns whether the URL refers to no request, reserves no name, and names no batch.
fn is_plain(alloc: Global, url: &str) -> Result<bool, AllocError>
    ensures { IfOk result (λ plain. IsTrue plain ↔ rests.IsPlain url.now) }
{
    match front(alloc, url)? {
        Front::Plain => Ok(!is_nested_batch(alloc, url)?),
        _ => Ok(false),
    }
}

/// Returns whether a Location, which is not empty, makes a URL that refers to no request, reserves no name, and names no batch.
fn is_usable(alloc: Global, location: &str, made: &str) -> Result<bool, AllocError>
    ensures { IfOk result (λ usable. IsTrue usable ↔ ((location.now ≢ []) × rests.IsPlain made.now)) }
{
    if location.is_empty() {
        return Ok(false);
    }
    is_plain(alloc, made)
}

/// Returns whether the request at a position is in the rest.
pub(crate) fn is_kept(plan: &Plan<'_>, kept: &[bool], i: u32) -> bool
    requires request { i < length (plan_records plan.now) }
    requires count { length kept.now ≡ all.unit_count (plan_records plan.now) }
    ensures { result ≡ rests.is_kept (plan_records plan.now) kept.now i }
{
    kept[plan.unit_of(i) as usize]
}

/// Returns the position that a request of the rest refers to, if the request at it is not in the rest.
pub(crate) fn if_left(plan: &Plan<'_>, kept: &[bool], referred: Option<u32>) -> Option<u32>
    requires referred { IfSome referred (λ p. p < length (plan_records plan.now)) }
    requires count { length kept.now ≡ all.unit_count (plan_records plan.now) }
    ensures { (target : ℕ → Option ℕ) (i : ℕ) → rests.is_kept (plan_records plan.now) kept.now i ≡ true
        → target i ≡ referred → MatchOption result
        ((p : ℕ) → ¬ rests.RefersOut (plan_records plan.now) kept.now target i p)
        (λ p. rests.RefersOut (plan_records plan.now) kept.now target i p) }
{
    let p = referred?;
    if is_kept(plan, kept, p) {
        None
    } else {
        Some(p)
    }
}

/// Returns the URL that request `i` of the rest gets, `None` if its URL stays, or F90 if no Location makes one: if
/// none is recorded, whatever memory there is.
pub(crate) fn url_of(
    alloc: Global,
    plan: &Plan<'_>,
    kept: &[bool],
    answers: &[Recorded<'_>],
    i: u32,
) -> Result<Option<String>, RestFault>
    requires request { i < length (plan_records plan.now) }
    requires count { length kept.now ≡ all.unit_count (plan_records plan.now) }
    requires stays { rests.is_kept (plan_records plan.now) kept.now i ≡ true }
    requires answers { length answers.now ≡ length (plan_records plan.now) }
    ensures url { IfOk result (λ url. rests.IsUrl (plan_records plan.now) kept.now
        (answers_in answers.now) i (option_map string_bytes url)) }
    ensures lacks { IfErr result (IsLacking NoLocation (LacksLocation (plan_records plan.now) kept.now
        (answers_in answers.now)) i) }
    ensures missing { (p : ℕ) → rests.Leaves (plan_records plan.now) kept.now i p
        → (answers_in answers.now p).location ≡ None → result ≡ Err (faults.Broken i NoLocation) }
{
    let Some(p) = if_left(plan, kept, plan.referred(i)) else {
        return Ok(None);
    };
    let Some(location) = answers[p as usize].location else {
        return Err(RestFault::Broken {
            at: i as usize,
            rule: RestRule::NoLocation,
        });
    };
    let made = joined(alloc, location, plan.request(i).url)?;
    if is_usable(alloc, location, made.as_str())? {
        Ok(Some(made))
    } else {
        Err(RestFault::Broken {
            at: i as usize,
            rule: RestRule::NoLocation,
        })
    }
}

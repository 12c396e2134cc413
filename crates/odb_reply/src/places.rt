//! Which response each request has.

ghost use Rattle.std.specs.Prelude.{◌≡◌, length, IfOk, IfErr, OnOk};
ghost use Rattle.odb_check.specs.Laws.{HasPositions};
ghost use Rattle.odb_check.specs.Plans.{plan_records};
ghost use Rattle.odb_reply.specs.LeastMatchFault.{RefusesMatch};
ghost use Rattle.odb_reply.specs.Places.{AreNoted, IsMisplaced, IsNoted, IsOnce};
ghost use Rattle.odb_reply.specs.ResponseDocuments.{entries};

use crate::match_fault::{MatchFault, MatchRule};
use crate::responses::Responses;
use odb_check::Plan;
use std::alloc::Global;

/// Notes the place of the response with this id, or returns the rule that the response breaks.
fn note_place(
    plan: &Plan<'_>,
    places: &mut [Option<usize>],
    id: &str,
    at: usize,
) -> Result<(), MatchRule>
    requires count { length places.old ≡ length (plan_records plan.now) }
    requires positions { HasPositions (plan_records plan.now) }
    ensures noted { OnOk result (IsNoted (plan_records plan.now) id.now at places.old places.new) }
    ensures misplaced { IfErr result (IsMisplaced (plan_records plan.now) id.now places.old) }
{
    let Some(i) = plan.position_near(at, id) else {
        return Err(MatchRule::UnknownResponse);
    };
    if places[i as usize].is_some() {
        return Err(MatchRule::ResponseTwice);
    }
    places[i as usize] = Some(at);
    Ok(())
}

/// Returns the place of the response to each request, or the first response that is unknown or
/// repeated.
pub(crate) fn places_of(
    alloc: Global,
    plan: &Plan<'_>,
    responses: &Responses<'_>,
) -> Result<Vec<Option<usize>>, MatchFault>
    ensures noted { IfOk result (λ places. AreNoted (plan_records plan.now) (entries responses.now)
        (length (entries responses.now)) places.items) }
    ensures first { IfErr result (λ fault. RefusesMatch fault (plan_records plan.now)
        (entries responses.now)) }
    ensures once { OnOk result (IsOnce (plan_records plan.now)) }
{
    odb_check::laws::every_plan(plan);
    let mut places: Vec<Option<usize>> = vec![in alloc; None; plan.len() as usize]?;
    for at in 0..responses.len() {
        if let Err(rule) = note_place(plan, &mut places, responses.entry(at).id, at) {
            return Err(MatchFault::Broken { at, rule });
        }
    }
    Ok(places)
}

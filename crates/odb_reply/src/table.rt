//! The responses of a service by the position of their request.

ghost use Rattle.std.specs.Prelude.{◌≡◌, ◌<◌, length, slice_get, slice_index, Some, IfOk, IfErr, OnOk};
ghost use Rattle.odb_check.specs.Plans.{plan_graph, plan_records};
ghost use Rattle.odb_doc.specs.Statuses as words;
ghost use Rattle.odb_reply.specs.LeastMatchFault.{RefusesMatch};
ghost use Rattle.odb_reply.specs.Places.{AreNoted, HasAllPlaces, HasRows, IsOnce};
ghost use Rattle.odb_reply.specs.ResponseDocuments.{entries};

use crate::match_fault::{MatchFault, MatchRule};
use crate::responses::Responses;
use odb_check::Plan;
use odb_check::laws::every_plan;
use odb_doc::status::is_success;
use std::alloc::{AllocError, Global};

/// The place and the status of the response to each request of a batch.
#[derive(Debug, Drop)]
pub struct Table {
    pub(crate) places: Vec<usize>,
    pub(crate) statuses: Vec<u16>,
}

impl Table {
    ghost use Rattle.odb_reply.specs.Fits.{AreUnits, places, statuses};

    /// Returns the status of the response to the request at a position, counted from 0.
    pub fn status(&self, i: u32) -> u16
        requires { i < length (statuses self.now) }
        ensures { slice_get (statuses self.now) i ≡ Some result }
    {
        self.statuses[i as usize]
    }

    /// Returns the status of the response to each request.
    pub fn statuses(&self) -> &[u16]
        ensures { result.now ≡ statuses self.now }
    {
        &self.statuses
    }

    /// Returns for each unit of the plan whether the responses to all its requests are successes.
    ///
    /// # Errors
    ///
    /// If memory for the units cannot be allocated.
    pub fn succeeded_units(&self, alloc: Global, plan: &Plan<'_>) -> Result<Vec<bool>, AllocError>
        requires { length (statuses self.now) ≡ length (plan_records plan.now) }
        ensures { IfOk result (λ units. AreUnits (plan_graph plan.now) (statuses self.now) units.items) }
    {
        every_plan(plan);
        plan.passing_units(
            alloc,
            |i|
                requires { i < length (statuses self.now) }
                ensures { result ≡ words.is_success (slice_index (statuses self.entry.now) i) }
            { is_success(self.status(i)) },
        )
    }

    /// Returns the place of the response to the request at a position, both counted from 0.
    pub fn place(&self, i: u32) -> usize
        requires { i < length (places self.now) }
        ensures { slice_get (places self.now) i ≡ Some result }
    {
        self.places[i as usize]
    }
}

/// Returns the table of the places that were found, or the first request without one.
pub(crate) fn table_of(
    alloc: Global,
    plan: &Plan<'_>,
    responses: &Responses<'_>,
    found: &[Option<usize>],
) -> Result<Table, MatchFault>
    requires once { IsOnce (plan_records plan.now) }
    requires noted { AreNoted (plan_records plan.now) (entries responses.now)
        (length (entries responses.now)) found.now }
    ensures rows { IfOk result (λ table. HasRows (plan_records plan.now) (entries responses.now)
        table.places.items table.statuses.items) }
    ensures all_places { OnOk result (HasAllPlaces (plan_records plan.now) (entries responses.now)) }
    ensures least { IfErr result (λ fault. RefusesMatch fault (plan_records plan.now)
        (entries responses.now)) }
{
    let mut places = Vec::with_capacity(alloc, found.len())?;
    let mut statuses = Vec::with_capacity(alloc, found.len())?;
    for (at, place) in found.iter().enumerate() {
        let Some(k) = *place else {
            let rule = MatchRule::ResponseMissing;
            return Err(MatchFault::Broken { at, rule });
        };
        places.push(k)?;
        statuses.push(responses.entry(k).status)?;
    }
    Ok(Table { places, statuses })
}

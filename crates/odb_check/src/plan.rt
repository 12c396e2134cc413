//! The plan of a batch: its units, and what each request needs.

ghost use Rattle.std.specs.Prelude.{◌==◌, ◌≡◌, ◌≤◌, ◌<◌, ℕ, Bool, length, slice_get, All, Some, IfOk};
ghost use Rattle.odb_doc.specs.batch.Records.{IsWellFormedRecord, record_of};
ghost use Rattle.odb_check.specs.LeastNameFault.{HasGoodNames};
ghost use Rattle.odb_check.specs.Levels.{level_at, levels_below};
ghost use Rattle.odb_check.specs.Needs.{needs_of_each};
ghost use Rattle.odb_check.specs.Requests.{requests};
ghost use Rattle.odb_check.specs.Units as units;

use crate::need::Need;
use crate::tables::Tables;
use odb_dense::Rows;
use odb_doc::Request;
use std::alloc::{AllocError, Global};
use std::ops::Range;

/// The plan of a batch whose names fit together: its units, and what each request needs before it may
/// start (OData JSON Format 4.01, sections 19.1 and 19.2; OData Protocol 4.01, section 11.7).
///
/// Each atomicity group is a unit, and so is each request that is in no group. Unit numbers start at 0
/// and follow the first request of each unit. The texts of the batch are borrowed from it.
#[derive(Drop)]
pub struct Plan<'b> {
    pub(crate) tables: Tables<'b>,
    pub(crate) needs: Rows<Need>,
    pub(crate) levels: Vec<u32>,
    ghost good: { HasGoodNames (requests tables) },
    ghost needed: { needs ≡ needs_of_each (requests tables) },
    ghost leveled: { levels.items ≡ levels_below (requests tables) (length (requests tables)) },
}

impl<'b> Plan<'b> {
    ghost use Rattle.odb_check.specs.Units.{groups_of};
    ghost use Rattle.odb_check.specs.Needs.{needs_at};
    ghost use Rattle.odb_check.specs.Plans.{plan_records, plan_graph};
    ghost use Rattle.odb_check.specs.PlanGraph.{AreAnswers, ArePassing, IsNeed, IsSpan};
    ghost use Rattle.odb_check.specs.PlanGraph as plan_graphs;

    /// Returns the number of requests: 10,000 at most.
    #[tactic(auto, using(crate::proofs::PlanLemmas::shaped))]
    pub fn len(&self) -> u32
        ensures count { result ≡ length (plan_records self.now) }
        ensures size { result ≡ length (plan_graph self.now).units }
        ensures small { result ≤ 10000 }
    {
        self.tables.len()
    }

    /// Returns whether there are no requests.
    pub fn is_empty(&self) -> bool
        ensures { result ≡ (length (plan_records self.now) == 0) }
    {
        self.len() == 0
    }

    /// Returns the request at a position, counted from 0.
    pub fn request(&self, i: u32) -> &Request<'b>
        requires { i < length (plan_records self.now) }
        ensures value { slice_get (plan_records self.now) i ≡ Some (record_of result.now) }
        ensures well_formed { IsWellFormedRecord (record_of result.now) }
    {
        self.tables.request(i)
    }

    /// Returns the number of units.
    pub fn unit_count(&self) -> u32
        ensures count { result ≡ units.unit_count (plan_records self.now) }
        ensures size { result ≡ (plan_graph self.now).unit_count }
        ensures few { result ≤ length (plan_records self.now) }
    {
        self.tables.unit_count()
    }

    /// Returns the number of different atomicity groups.
    pub fn group_count(&self) -> u32
        ensures { result ≡ length (groups_of (plan_records self.now)) }
    {
        self.tables.group_count()
    }

    /// Returns the unit of the request at a position.
    #[tactic(auto, using(crate::proofs::PlanLemmas::shaped))]
    pub fn unit_of(&self, i: u32) -> u32
        requires { i < length (plan_graph self.now).units }
        ensures value { result ≡ units.unit_at (plan_records self.now) i }
        ensures within { result < units.unit_count (plan_records self.now) }
        ensures unit { result ≡ plan_graphs.unit_of (plan_graph self.now) i }
        ensures counted { result < (plan_graph self.now).unit_count }
    {
        self.tables.unit_of(i)
    }

    /// Returns for each unit whether all its requests pass a test.
    ///
    /// # Errors
    ///
    /// If memory for the units cannot be allocated.
    pub fn passing_units<F: Fn(u32) -> bool>(
        &self,
        alloc: Global,
        passes: F,
    ) -> Result<Vec<bool>, AllocError>
        requires { (i : ℕ) → i < length (plan_graph self.now).units → F.pre passes i }
        ensures { (test : ℕ → Bool) → AreAnswers (length (plan_graph self.now).units) (F.post passes) test
            → IfOk result (λ units. ArePassing (plan_graph self.now) test
            (length (plan_graph self.now).units) units.items) }
    {
        let mut units = vec![in alloc; true; self.unit_count() as usize]?;
        for i in 0..self.len() {
            if !passes(i) {
                units[self.unit_of(i) as usize] = false;
            }
        }
        Ok(units)
    }

    /// Returns the positions of a unit, which are adjacent.
    pub fn members(&self, u: u32) -> Range<u32>
        requires { u < (plan_graph self.now).unit_count }
        ensures span { IsSpan (plan_graph self.now) u result.start result.end }
    {
        let count = self.unit_count();
        let start = self.tables.start_of(u);
        let end = if u + 1 < count {
            self.tables.start_of(u + 1)
        } else {
            self.len()
        };
        start..end
    }

    /// Returns how many requests a unit has.
    pub fn unit_size(&self, u: u32) -> u32
        requires { u < (plan_graph self.now).unit_count }
        ensures size { result ≡ units.unit_size (plan_records self.now) u }
        ensures few { result ≤ 10000 }
    {
        let _count = self.len();
        let members = self.members(u);
        members.end - members.start
    }

    /// Returns the dependencies of the request at a position: its `dependsOn` entries in order,
    /// without repeats, then the request that its URL refers to unless it is already among them.
    pub fn needs(&self, i: u32) -> &[Need]
        requires { i < length (plan_graph self.now).units }
        ensures value { result.now ≡ needs_at (plan_records self.now) i }
        ensures needs { result.now ≡ plan_graphs.needs_of (plan_graph self.now) i }
        ensures known { All (IsNeed (plan_graph self.now)) result.now }
    {
        self.needs.row(i)
    }

    /// Returns the dependencies of each request.
    pub fn all_needs(&self) -> &Rows<Need>
        ensures { result.now ≡ (plan_graph self.now).needs }
    {
        &self.needs
    }

    /// Returns the length of the longest dependency chain that ends at the request at a position.
    ///
    /// A request without dependencies has level 0, and a dependency on a group has the highest level
    /// among its requests.
    pub fn level(&self, i: u32) -> u32
        requires { i < length (plan_records self.now) }
        ensures { result ≡ level_at (plan_records self.now) i }
    {
        self.levels[i as usize]
    }

    /// Returns the position of the request with this identifier, or `None` if the text is not an
    /// identifier of the batch.
    pub fn position_of(&self, id: &str) -> Option<u32>
        ensures { result ≡ units.position_of (plan_records self.now) id.now }
    {
        self.tables.position_of(id)
    }

    /// Returns what [`Plan::position_of`] returns. It is faster if the request at position `guess`, counted from 0, has the
    /// identifier, as in a list that has the order of the batch. `guess` may be any number.
    pub fn position_near(&self, guess: usize, id: &str) -> Option<u32>
        ensures { result ≡ units.position_of (plan_records self.now) id.now }
    {
        self.tables.position_near(guess, id)
    }

    /// Returns the position of the request that the URL of request `i` refers to, if it refers to one.
    pub fn referred(&self, i: u32) -> Option<u32>
        requires { i < length (plan_records self.now) }
        ensures { result ≡ units.referred_at (plan_records self.now) i }
    {
        self.tables.referred(i)
    }
}

//! Which requests and units the `dependsOn` of a request names.

ghost use Rattle.std.specs.Prelude.{◌≡◌, ◌<◌, ◌==◌, length, slice_index, IfOk};
ghost use Rattle.odb_check.specs.Marks.{AreUpTo, ones_with, groups_with};
ghost use Rattle.odb_check.specs.Requests.{requests};
ghost use Rattle.odb_check.specs.PlanGraph.{IsNeedAmong};

use crate::need::Need;
use crate::tables::Tables;
use std::alloc::{AllocError, Global};

/// Which requests and units the current request names: arrays of generation stamps.
///
/// Each request writes its own, larger stamp, so the arrays are never cleared.
#[derive(Drop)]
pub(crate) struct Marks {
    ones: Vec<u32>,
    groups: Vec<u32>,
}

impl Marks {
    /// No marks yet, for stamps from 1 on.
    pub(crate) fn new(alloc: Global, tables: &Tables<'_>) -> Result<Marks, AllocError>
        ensures { IfOk result (λ marks. AreUpTo (requests tables.now) 0 marks.ones.items
            marks.groups.items) }
    {
        Ok(Marks {
            ones: vec![in alloc; 0_u32; tables.len() as usize]?,
            groups: vec![in alloc; 0_u32; tables.unit_count() as usize]?,
        })
    }

    /// Marks what a name resolves to.
    pub(crate) fn mark(&mut self, need: Need, stamp: u32)
        requires { IsNeedAmong (length self.old.ones.items) (length self.old.groups.items) need }
        ensures ones { self.new.ones.items ≡ ones_with need stamp self.old.ones.items }
        ensures groups { self.new.groups.items ≡ groups_with need stamp self.old.groups.items }
    {
        match need {
            Need::One(position) => self.ones[position as usize] = stamp,
            Need::Group(unit) => self.groups[unit as usize] = stamp,
        }
    }

    /// Whether the request has the stamp.
    pub(crate) fn has_one(&self, position: u32, stamp: u32) -> bool
        requires { position < length self.now.ones.items }
        ensures { result ≡ (slice_index self.now.ones.items position == stamp) }
    {
        self.ones[position as usize] == stamp
    }

    /// Whether the unit has the stamp.
    pub(crate) fn has_group(&self, unit: u32, stamp: u32) -> bool
        requires { unit < length self.now.groups.items }
        ensures { result ≡ (slice_index self.now.groups.items unit == stamp) }
    {
        self.groups[unit as usize] == stamp
    }
}

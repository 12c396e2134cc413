//! Units that were sent as one: what is counted of them, so that each takes one place of the width.

ghost use Rattle.std.specs.Prelude.{◌≡◌, ◌<◌, ◌≤◌, length, replicate, slice_index_or, slice_set, IfOk};
ghost use Rattle.odb_sched.specs.invariants.Lanes.{AreLanes};
ghost use Rattle.odb_sched.specs.run.State.{awaited_after};

use std::alloc::{AllocError, Global};

/// What is counted of the units that were sent as one.
#[derive(Drop)]
pub(crate) struct Lanes {
    /// Of each unit that was sent as one, how many reports are awaited; of any other 0.
    pub(crate) awaited: Vec<u32>,
    /// How many of these are beside another of their unit, so that they take no place of the width.
    pub(crate) spare: u32,
}

impl Lanes {
    /// Returns the counts of so many units, of which none was sent.
    pub(crate) fn new(alloc: Global, count: u32) -> Result<Lanes, AllocError>
        requires { count ≤ 10000 }
        ensures { IfOk result (AreLanes (replicate count 0)) }
    {
        let awaited = vec![in alloc; 0; count as usize]?;
        Ok(Lanes { awaited, spare: 0 })
    }

    /// Notes that a unit of so many members was sent as one.
    pub(crate) fn send(&mut self, u: u32, count: u32)
        requires unit { u < length self.old.awaited.items }
        requires some { 0 < count }
        requires small { count ≤ 10000 }
        requires lanes { AreLanes self.old.awaited.items self.old }
        requires fresh { slice_index_or self.old.awaited.items u 0 ≡ 0 }
        ensures awaited { self.new.awaited.items ≡ slice_set self.old.awaited.items u count }
        ensures lanes { AreLanes self.new.awaited.items self.new }
    {
        self.awaited[u as usize] = count;
        self.spare += count - 1;
    }

    /// Notes the report of a member of a unit.
    pub(crate) fn take_report(&mut self, u: u32)
        requires unit { u < length self.old.awaited.items }
        requires lanes { AreLanes self.old.awaited.items self.old }
        ensures awaited { self.new.awaited.items ≡ awaited_after self.old.awaited.items u }
        ensures lanes { AreLanes self.new.awaited.items self.new }
    {
        let left = self.awaited[u as usize];
        self.awaited[u as usize] = left.saturating_sub(1);
        if left > 1 {
            self.spare -= 1;
        }
    }
}

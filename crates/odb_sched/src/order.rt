//! The built-in orders of the steps of a run.

ghost use Rattle.std.specs.Prelude.{◌≡◌, ℕ, false, None, slice_index_or, IfSome};
ghost use Rattle.odb_sched.specs.invariants.Ends.{IsEndOf};

use odb_dense::MinMaxSet;

/// Which step of a run comes next, given the positions of the ready and the running requests.
#[derive(Clone, Copy, Debug, PartialEq, Eq)]
pub enum Order {
    /// Reports before it starts, each time the request with the least position.
    First,
    /// Reports before it starts, each time the request with the greatest position.
    Last,
    /// Starts all ready requests before it reports, and takes the least position.
    Wide,
}

/// One end of a set of positions.
#[derive(Clone, Copy, Debug)]
pub(crate) enum End {
    Least,
    Greatest,
}

impl End {
    /// Returns the position at this end of a set, or `None` if the set is empty.
    pub(crate) fn of(self, set: &mut MinMaxSet) -> Option<u32>
        ensures same { set.new ≡ set.old }
        ensures none { result ≡ None → (i : ℕ) → slice_index_or set.old i false ≡ false }
        ensures some { IfSome result (IsEndOf self set.old) }
    {
        match self {
            End::Least => set.least(),
            End::Greatest => set.greatest(),
        }
    }
}

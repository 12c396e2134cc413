//! A live run as an address without a type, which C may hold.

ghost use Rattle.odb_live.specs.declared.run.LiveRun.{LiveRun};
ghost use Rattle.odb_live.specs.contracts.run.LiveRun as live;

use std::alloc::Global;
use std::marker::Model;

/// A live run on the heap, as its address without a type. For C it is a `void *`.
#[repr(C)]
pub struct Handle {
    pub(crate) at: *mut u8,
    pub(crate) alloc: Global,
    pub ghost value: { LiveRun } by { live.the_row.coded },
}

impl Model for Handle {
    ghost use Rattle.std.specs.Box.Ownership.{box_owns};
    ghost use Rattle.std.specs.contracts.impls.GlobalAllocator.TheImpl.{ghosts};
    ghost use Rattle.odb_live.specs.contracts.run.LiveRun as live;

    ghost also_owns = { λ h. box_owns (ghosts.dealloc_token h.alloc) live.the_row h.at h.value };
}

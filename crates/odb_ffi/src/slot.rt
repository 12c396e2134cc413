//! Where a handle is written for C.

ghost use Rattle.std.specs.Prelude.{Option};
ghost use Rattle.std.specs.Coded.{coded_option};
ghost use Rattle.odb_live.specs.declared.run.LiveRun.{LiveRun};
ghost use Rattle.odb_live.specs.contracts.run.LiveRun as live;

use std::alloc::Global;
use std::marker::Model;

/// A place for a handle, which holds one or not. For C it is a `void *`.
#[repr(C)]
#[derive(Drop)]
pub struct Slot {
    pub(crate) at: *mut u8,
    pub(crate) alloc: Global,
    pub ghost value: { Option LiveRun } by { coded_option live.the_row.coded },
}

impl Model for Slot {
    ghost use Rattle.odb_ffi.specs.Owned.{owns_box};

    ghost also_owns = { λ s. owns_box s.alloc s.at s.value };
}

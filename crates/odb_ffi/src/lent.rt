//! A handle made of a live run, and the live run of a handle.

ghost use Rattle.std.specs.Prelude.{◌≡◌};
ghost use Rattle.std.specs.Borrow.{Lends, sem};
ghost use Rattle.odb_ffi.specs.contracts.handle.Handle as handle;
ghost use Rattle.odb_live.specs.contracts.run.LiveRun as live;
ghost use Rattle.odb_ffi.specs.Handles.{with_live};

use crate::address::Address;
use crate::handle::Handle;
use odb_live::LiveRun;
use std::alloc::Global;

impl Handle {
    /// Forgets the type.
    fn of_address(address: Address<LiveRun, Global>) -> Handle
        ensures { result.value ≡ address.value }
    {
        let Address { at, alloc } = address;
        Handle {
            at: at as *mut u8,
            alloc,
        }
    }

    /// Knows the type again.
    fn into_address(self) -> Address<LiveRun, Global>
        ensures { result.value ≡ self.value }
    {
        let Handle { at, alloc } = self;
        Address {
            at: at as *mut LiveRun,
            alloc,
        }
    }

    /// Returns the live run at the address.
    pub fn live(&mut self) -> &mut LiveRun
        ensures* writes_back { sem 𝓛 (Lends handle.the_row live.the_row self.entry result
            (with_live self.old)) }
        ensures value { result.now ≡ self.old.value }
    {
        unsafe { &mut *(self.at as *mut LiveRun) }
    }

    /// Takes the box of a live run apart.
    pub fn of(owned: Box<LiveRun>) -> Handle
        ensures { result.value ≡ owned.value }
    {
        Handle::of_address(Address::of(owned))
    }

    /// Puts the box together again.
    pub fn into_box(self) -> Box<LiveRun>
        ensures { result.value ≡ self.value }
    {
        self.into_address().into_box()
    }
}

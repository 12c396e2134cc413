//! A slot of a handle.

ghost use Rattle.std.specs.Prelude.{◌≡◌, Some};

use crate::handle::Handle;
use crate::slot::Slot;

impl Slot {
    /// Returns a slot that holds the handle.
    pub fn of(handle: Handle) -> Slot
        ensures { result.value ≡ Some handle.value }
    {
        let Handle { at, alloc } = handle;
        Slot { at, alloc }
    }
}

//! The commands and live runs for programs in other languages: functions with the calling convention of C.
//!
//! Each export calls the function of `odb_calls` that does the same over slices and numbers, and states what that states. A call
//! of a command keeps nothing; a live run is a handle that its caller closes. `include/odb_batch.h` declares the exports for C.
//!
//! The modules whose names end in `exports` have the exports alone. What needs a pointer is in `address`, [`handle`], `lent` and
//! [`slot`].
#![tactic(auto)]

mod address;
pub mod constant_exports;
pub mod explain_exports;
pub mod exports;
pub mod fault_exports;
mod filled;
pub mod handle;
pub mod header_exports;
mod lent;
pub mod open_exports;
pub mod part_exports;
pub mod place_exports;
pub mod report_exports;
pub mod request_exports;
pub mod resolve_exports;
pub mod response_exports;
pub mod run_exports;
pub mod slot;
pub mod unit_exports;

//! Readers and writers that remember whether they failed.
//!
//! An [`Input`] counts its reads, and may be read [`MAX_READS`] times. An [`Output`] writes a whole text in as
//! many writes as its writer takes. After a [`DeviceFault`] neither is called again.
#![tactic(auto)]

mod device;
pub mod laws;

pub use device::{DeviceFault, Input, MAX_READS, Output};

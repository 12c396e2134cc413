//! Tests of what a caller sees of documents, checks, bodies and devices.
//!
//! The crates of tests have tests and nothing else: a crate with tests is proved twice. Each stands on the crates that
//! it tests, so that it is proved while those above them still are. A module asks of
//!
//! - `laws`: what each law means for its caller;
//! - `devices`: readers and writers that fail; `headers`, `seeds`, `spans`: what their names say.
#![tactic(auto)]

#[cfg(test)]
mod devices;
#[cfg(test)]
mod headers;
#[cfg(test)]
mod laws;
#[cfg(test)]
mod seeds;
#[cfg(test)]
mod spans;

//! Tests of what a caller sees of live runs, and of what is read for them.
//!
//! - `examples`: what a caller writes, as docs/library.md and the docs of the calls show it;
//! - `live`, `bodies`: live runs, and the bodies that are reported to them; `requests`: what is to be sent;
//! - `laws`: what each law on live runs and their parts means for its caller.
#![tactic(auto)]

#[cfg(test)]
mod bodies;
#[cfg(test)]
mod examples;
#[cfg(test)]
mod laws;
#[cfg(test)]
mod live;
#[cfg(test)]
mod requests;

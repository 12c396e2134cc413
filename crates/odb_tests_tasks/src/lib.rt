//! Tests of what a caller sees of tasks on documents. What the program prints is shown on the built program, in
//! tests/cases/.
//!
//! - `engines`: every task, by devices that are slow or fail, and what it keeps in memory;
//! - `examples`: what a caller writes, as docs/library.md and the docs of the calls show it;
//! - `laws`: what each law means for its caller.
#![tactic(auto)]

#[cfg(test)]
mod engines;
#[cfg(test)]
mod examples;
#[cfg(test)]
mod laws;

//! Tests of what a caller sees of runs and executions.
//!
//! - `laws`: what each law means for its caller;
//! - `runs`: events, units, executions and choosers.
#![tactic(auto)]

#[cfg(test)]
mod laws;
#[cfg(test)]
mod runs;

//! Tests of what a caller sees of logs, of all faults of a document, and of where they are.
//!
//! - `examples`: what a caller writes, as docs/library.md and the docs of the calls show it;
//! - `lines`: commands over the lines of a log;
//! - `all_faults`, `located`: all faults of a document, and where they are.
#![tactic(auto)]

#[cfg(test)]
mod all_faults;
#[cfg(test)]
mod examples;
#[cfg(test)]
mod lines;
#[cfg(test)]
mod located;

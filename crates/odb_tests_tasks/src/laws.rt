//! Proved callers of the laws of each crate: their premises are met by what the public calls ensure.

pub mod engines;
mod located;
mod pairs;
mod replays;
mod verdicts;
mod written;

//! Proved callers of the laws of each crate: their premises are met by what the public calls ensure.

mod checks;
mod documents;
mod places;

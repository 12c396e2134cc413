//! Proved callers of the laws of each crate: their premises are met by what the public calls ensure.

mod parts;
mod replies;
mod resends;
mod rests;
mod texts;
mod units;

pub use resends::text_of_rest;

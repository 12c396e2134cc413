//! Proved callers of the laws on live runs: their premises are met by what the public calls ensure.

mod live;
mod parts;

//! Tests of what a caller sees of responses, texts and rests.
//!
//! - `documents`: what tests ask of a batch with its document, and of the responses to it;
//! - `examples`: what a caller writes, as docs/library.md and the docs of the calls show it;
//! - `laws`: what each law means for its caller;
//! - `replies`: responses that are written; `rests`: what may be sent again; `parts`: what may be sent together.
#![tactic(auto)]

#[cfg(test)]
mod documents;
#[cfg(test)]
mod examples;
#[cfg(test)]
mod laws;
#[cfg(test)]
mod parts;
#[cfg(test)]
mod replies;
#[cfg(test)]
mod rests;

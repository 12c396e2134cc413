//! Tests of where requests are sent: what the exact clauses of `odb_resolve` mean for URLs that clients write.
//!
//! - `urls`: URLs below one root; `roots`: what is a root, and several of them;
//! - `references`: URLs and conditions that refer to other requests.
#![tactic(auto)]

#[cfg(test)]
mod references;
#[cfg(test)]
mod roots;
#[cfg(test)]
mod urls;

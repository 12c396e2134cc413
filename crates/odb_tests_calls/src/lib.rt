//! Tests of what a caller sees of the calls of the C library, but for pointers: what the laws on lists of calls mean for it.
//! What C sees of them is shown on the built library, in tests/library/.
#![tactic(auto)]

#[cfg(test)]
mod sessions;

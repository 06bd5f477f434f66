//! Tests of trees, witnesses and request ids, beside their crates: a crate with tests of its own is proved twice.
//!
//! A value that is dropped is asked about by a function that borrows it, and a function that owns one has one end:
//! written out in a test, both would be long to prove.
#![tactic(auto)]

#[cfg(test)]
mod bytes;
#[cfg(test)]
mod hashes;
#[cfg(test)]
mod trees;

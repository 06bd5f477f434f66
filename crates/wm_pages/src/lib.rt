//! Bytes in pages that can be undone.
//!
//! `Pages` is one list of bytes. A message begins, writes and grows, and ends with `keep` or `undo`.
//! What it overwrites is saved by ranges of 4,096 bytes, each once, before the first write to it; so
//! beginning takes constant time and no memory, and undoing the time of the ranges that were saved.
#![tactic(auto)]

mod pages;
mod ranges;

pub use pages::{PAGE, Pages};

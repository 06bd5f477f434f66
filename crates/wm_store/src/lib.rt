//! The store of a running module: memory, globals and table, and stable memory.
//!
//! Contracts see a `Store` as its lists (`specs/Lists`), the lists at the beginning of the message
//! where one has begun, and the number of saved ranges (`specs/Held`). `specs/Fits` says when the
//! lists are those of a module.
#![tactic(auto)]

mod access;
mod laws;
mod store;

pub use laws::{meanings_are_typed, meanings_run_well};
pub use store::Store;

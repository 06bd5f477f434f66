//! Instantiation of WebAssembly modules (Core 1.0, 4.5.4): the store that a module begins with.
//!
//! `instantiate` answers the store of wm_semantics' `specs/Instance`. Every segment is looked at
//! before any is written; the table and the globals are built first, and the memory is made with
//! them.
#![tactic(auto)]

mod constants;
mod fault;
mod instance;
mod tables;

pub use fault::InstanceFault;
pub use instance::instantiate;

//! The System API (IC Interface Specification, "System API"): what a canister's code may ask of its
//! host.
//!
//! `specs/Meaning` says of each call what it answers and what it changes, in the order of the table
//! (`wm_valid::system_api`); `specs/Kinds` says which entry points may use it, and `specs/Charges`
//! what it costs. `Api` is the host that runs the calls. What happens in an execution is kept in its
//! record, and `finish` gives the effects. `specs/Executed` says what every execution keeps. `Hearing` is the same host where
//! somebody listens to what `debug_print` is given.
#![tactic(auto)]

mod act;
mod answering;
mod api;
mod calling;
mod charges;
mod cycles;
mod execution;
mod hearing;
mod kinds;
mod laws;
mod memory;
mod rest;
mod run;
mod stable;

pub use api::Api;
pub use hearing::Hearing;
pub use ic_behaviour::{
    Callback, Controllers, Effects, EntryKind, OutCall, OutCalls, Response, View,
};
pub use laws::{
    entries_are_lawful, executions_keep, hearing_changes_nothing, hearing_is_function,
    host_is_function, installations_are_quiet, replies_keep,
};

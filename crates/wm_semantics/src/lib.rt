//! The meaning of WebAssembly (Core 1.0, chapter 4; from Core 2.0 sign extension, copy and fill), for
//! canisters: the reductions, what they cost, and what they ask of a host.
//!
//! The definitions stand section by section beside the standard's (`specs/`): values, function
//! instances, configurations, one reduction, its charge, hosts, and what a run ends in. The laws say
//! that no valid module gets stuck, and that a run has one outcome. Two lemmas quantify over relations,
//! as no clause can, and are in `proofs/` for the crates above: `AlwaysKept` (what each answer of a
//! relation keeps, a run of any module keeps) and `Narrow` (a fact that a host's answers keep holds at
//! each of them).
#![tactic(auto)]

mod host;
mod keeps;
mod laws;
mod meter;
mod outcome_laws;
mod target;
mod trap;

pub use host::{Host, HostAnswer};
pub use keeps::Keeps;
pub use laws::{never_stuck, run_keeps, store_fits};
pub use meter::Meter;
pub use outcome_laws::{
    by_fuel, entry_is, entry_runs, fuel_reaches, one_outcome, seen_through, some_outcome,
};
pub use target::{Ended, Target};
pub use trap::Trap;

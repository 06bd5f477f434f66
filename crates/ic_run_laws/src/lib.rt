//! The accounting of calls and cycles: what every delivery of a message keeps, in whatever order
//! messages come.
//!
//! Of the code that runs only this is taken, that an entry accounts for the cycles that it saw and
//! answers once (`specs/EntryKeeps`); of the management canister only that it keeps what a delivery
//! keeps (`specs/Advances`). The System API (`ic_api`) lets code do nothing else.
#![tactic(auto)]

mod laws;
mod runs;
mod system;

pub use laws::{
    absent_keeps, delivery_keeps_counts, delivery_keeps_sound, drained_is_done, trap_keeps,
};
pub use runs::{every_call_in_a_run, every_run};
pub use system::system_api_keeps;

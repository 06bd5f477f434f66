//! What a test does, as a script for `replica`, and what canisters said while it ran; parts of a test file in one line.
#![tactic(auto)]

mod one_line;
mod script;
mod trace;

pub use one_line::{shown, written};
pub use script::Script;
pub use trace::{CallName, Delivered, Deliveries, Fallen, Sent, Spoken, Trace};

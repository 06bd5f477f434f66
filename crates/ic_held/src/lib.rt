//! A message that waits for its canister, in a box: it is large, and moved more than once before it is handled.
#![tactic(auto)]

mod held;

pub use held::{Held, UserCall};

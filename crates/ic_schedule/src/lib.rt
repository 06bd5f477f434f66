//! Schedules: messages are delivered one by one, in an order that is handed in.
//!
//! A pick is a place in the list of messages. It is delivered where no earlier message has its sender
//! and its callee, and the first pick of which that is false ends the replay. Which states come of it
//! is said in `specs/Picks`; a call to the management canister is carried out by a `Manager`.
#![tactic(auto)]

mod delivering;
mod eligibility;
mod laws;
mod manager;
mod replaying;

pub use delivering::{deliver, is_managed};
pub use eligibility::eligible;
pub use laws::picks_are_steps;
pub use manager::Manager;
pub use replaying::replay;

//! Values that are compared and copied exactly, and what keeps many of them in little memory.
//!
//! Of an `Exact` value the contracts say which others are the same, and that a copy is equal. `Shared` is
//! a value in a place that others share. `Ranges` keeps each range of 4,096 bytes once, under a number,
//! so that memories are lists of numbers.
#![tactic(auto)]

mod calls;
mod canisters;
mod exact;
mod instructions;
mod items;
mod key;
mod lists;
mod modules;
mod ranges;
mod shared;

pub use exact::{Exact, Same};
pub use items::{copied, same_items};
pub use key::mix;
pub use lists::{Entries, Numbers, Words};
pub use ranges::Ranges;
pub use shared::{Shared, shared_items, unshared};

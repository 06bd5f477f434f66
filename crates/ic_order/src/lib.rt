//! The order of messages: which message may come next, and states that differ only in the order of messages that
//! go different ways.
//!
//! Of the calls of one canister to another the earlier come first, and nothing else is promised (`specs/Ways`).
//! So two states count as the same where all but the messages is equal and the messages of each way are
//! (`specs/Order`): each delivery from one is matched by one from the other, to states that are the same again.
#![tactic(auto)]

mod coming;
mod laws;
mod way;

pub use coming::next_places;
pub use laws::{
    deliveries_are_matched, management_respects_order, next_messages_make_runs,
    same_states_are_alike, sorted_lists_tell,
};
pub use way::{Way, way_of};

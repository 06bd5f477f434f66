//! States that are kept.
//!
//! A search over orders meets many states, of which each differs little from one that it met before. A
//! `Keeper` keeps them: ranges of memories, codes, and whole parts that two states have alike are kept
//! once. What is given back is the state. Two kept states are told to be the same exactly where they are equal,
//! and to be the same up to the order of messages that go different ways exactly where they are.
#![tactic(auto)]

mod codes;
mod keeper;
mod kept;
mod key;
mod laws;
mod making;
mod messages;
mod parts;
mod turning;

pub use keeper::Keeper;
pub use kept::Kept;
pub use laws::{growth_keeps, same_states_have_one_key};

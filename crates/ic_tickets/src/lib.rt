//! Tickets: workers draw numbered items from one table, each item once.
//!
//! The table has one word, the ticket word, and a slot for each item. A draw adds one to the word, and
//! what it found there is its number: below the count of items it takes the item of that number, else the
//! pass has ended. The rule between any two steps is in `specs/Rule`, what a call's contract says of
//! a table and of a pass in `specs/Tickets`.
#![tactic(auto)]

mod calls;
mod rule;
mod view;

pub use rule::{Pass, Tickets};

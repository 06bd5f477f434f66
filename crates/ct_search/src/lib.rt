//! A search of every order in which a system can move.
//!
//! `specs/Meaning` says what a system is, and `specs/Visits` what is found: `explore` meets each state that can be
//! reached, breadth first, and takes states for one that count as one and are met after equally many moves; `dive` meets some,
//! depth first. What is
//! kept of a state may be of another type than the state, and be kept together with others.
#![tactic(auto)]

mod case;
mod diving;
mod exploring;
mod index;
mod laws;
mod machine;
mod moving;
mod visiting;

pub use case::{Case, Met};
pub use diving::dive;
pub use exploring::explore;
pub use laws::ends_are_met;
pub use machine::Machine;

//! The script that a number stands for: a large valid input that every machine makes alike.
//!
//! Eight canisters are made and run the relay module. Then that many calls go to them as the number
//! says, each along a route of up to three more canisters; a linear congruential generator that
//! begins with the number chooses them.
#![tactic(auto)]

mod calls;
mod canisters;
mod script;

pub use script::generate;

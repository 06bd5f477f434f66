//! What users ask of a state as it is: whether a call is accepted before it is submitted, and what a query is answered.
//! The state stays as it is.
#![tactic(auto)]

mod asking;

pub use asking::{accepts_beside, accepts_now, answer_beside, answer_now};

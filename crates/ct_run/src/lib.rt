//! Tests of canisters run: a test of a checked file leads from the empty state, statement after statement, to its end
//! or to the first statement that is not met.
//!
//! What a statement asks is made with the names alone (`ct_asked`). What comes of it are acts of a run, as of
//! a script's lines: a call is submitted, and rounds are made until no message is left. It meets its outcomes or not.
#![tactic(auto)]

mod calling;
mod creating;
mod hearing;
mod judging;
pub mod laws;
mod names;
mod runner;
mod statement;
mod telling;
mod verdict;

pub use calling::{MOST_CALLS, came_now};
pub use judging::{expected_of, wanted_of};
pub use names::Names;
pub use runner::Runner;
pub use verdict::{Failure, Unmet, Wanted};

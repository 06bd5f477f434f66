//! Tests with interleaves run, in every order that the specification allows.
//!
//! A test is at a list of cases: a state, what names stand for in it, and the deliveries that led there. A
//! statement takes each case to one; an interleave takes them to those after all orders of its messages, which
//! `ct_search` looks for. The first statement that is not met in some case ends the test.
#![tactic(auto)]

mod delivery;
mod interfaces;
pub mod laws;
mod retelling;
mod tester;
mod tracing;
mod verdict;

pub use delivery::Delivery;
pub use retelling::{Retold, Told, retell, retell_traced};
pub use tester::test;
pub use tracing::{Traced, TracedStatement};
pub use verdict::{Ended, Last, NotMet, TooMany, Verdict, Way};

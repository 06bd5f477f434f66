//! The names of test files: what each is bound to, and where it is seen.
//!
//! A name is bound once where it can be seen, and gets the next slot: so whoever runs a file keeps what
//! names stand for in a list, and finds it by the slot. What a statement or an interleave binds is seen
//! after it; what a test binds is not seen in the next.
#![tactic(auto)]

mod bound;
pub mod laws;
mod names;
mod scope;

pub use bound::{Bound, InterfaceId, Kind};
pub use names::ByName;
pub use scope::Scope;

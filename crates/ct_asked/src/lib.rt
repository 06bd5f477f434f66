//! What a test of canisters asks: what each move says with what the names stand for, or why nothing is asked. No state
//! is needed for it.
#![tactic(auto)]

mod asked;
mod asker;
mod change;
mod creation;
pub mod laws;
mod names;
mod requests;

pub use asked::Asked;
pub use asker::Asker;
pub use creation::Creation;
pub use names::principal_at;

use ic_state::{AnsweredList, Canister, Messages};
use wm_semantics::Trap;

/// What the execution of a message gave.
#[derive(Drop)]
pub struct Executed {
    pub canister: Canister,
    /// The calls that go out, in the order in which they were performed.
    pub calls: Messages,
    /// The answer to the message's own call, and then those to contexts and calls that close.
    pub answers: AnsweredList,
    /// How many instructions the message used, callback and cleanup together.
    pub used: u64,
    /// Why the message's entry point or callback trapped, if it did.
    pub trapped: Option<Trap>,
    /// The cycles that the instructions cost.
    pub burned: u128,
}

//! The management canister, as definitions: what each of its methods does to a state.
//!
//! A method is a chain of moves (`specs/Moves`), each of which keeps a state sound; `specs/Rows` has
//! them one by one, and `specs/Manage` all together. The laws say that no call is lost by them, so that
//! the laws of every run hold with calls to the management canister among its messages. `ic_mgmt` has the code. The two
//! are apart for the gate's sake: the contracts of rounds and of the top call cite these definitions, and the laws need
//! no code.
#![tactic(auto)]

mod laws;
mod runs;

pub use laws::{
    calls_keep_calls, canisters_keep_calls, chains_keep_calls, management_is_apart,
    management_keeps,
};
pub use runs::{every_call_in_a_run, every_run};

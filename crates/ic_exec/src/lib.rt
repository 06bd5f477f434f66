//! The execution of messages: what a canister does when it gets a call or an answer.
//!
//! `execute_in` does what `ic_behaviour` says of the handling of one message (`specs/Local`). Code is
//! entered by `ic_entry`, which also has what users ask without a call, and installations.
#![tactic(auto)]

mod answers;
mod calls;
mod effects;
mod executed;
mod executing;
mod work;

pub use executed::Executed;
pub use executing::{execute, execute_in};
pub use ic_entry::{
    InstallFault, Installed, Mode, Order, inspect, inspects, install, install_in, place_code, query,
};
pub use ic_state::Env;
pub use work::Done;

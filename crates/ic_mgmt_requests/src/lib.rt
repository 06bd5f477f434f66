//! The calls to the management canister by which a user makes a canister and gives it a module (IC Interface
//! Specification, "IC method `provisional_create_canister_with_cycles`" and "IC method `install_code`"): the
//! arguments as they are sent, and which canister a reply names.
#![tactic(auto)]

mod ids;
pub mod laws;
mod reply;
mod requests;
mod types;

pub use reply::canister_named;
pub use requests::{creation_argument, installation_argument};

//! The management canister (IC Interface Specification, "The IC management canister"), and the second phase of a round:
//! messages to principals that are no canisters, the management canister among these, in the order of the list.
//!
//! A method of the management canister changes the canisters of a world's parts, and tells in an `Ending` what is to be
//! sent; what is refused changes nothing. That this is what `ic_mgmt_laws` defines is proved. `manage` is the delivery of
//! one such call, wherever it is in the list.
//!
//! In the second phase one pass goes through the list (`specs/Sweeping`) and knows from whom to whom a message has stayed,
//! so that none is handled before an earlier one. A call to the management canister is carried out, and every other
//! message goes back. That this is the second phase of a round as `ic_behaviour` defines it, one delivery after another,
//! is proved. The laws of every run with such calls are those of `ic_mgmt_laws`, which this crate gives too.
#![tactic(auto)]

mod changing;
mod ending;
mod installing;
mod making;
mod managed;
mod managing;
mod moving;
mod outside;
mod parts;
mod phases;
mod second;
mod settings;
mod sweep;
mod uninstalling;

pub use ic_mgmt_laws::{every_call_in_a_run, every_run};
pub use managed::manage;
pub use outside::deliver_outside;
pub use parts::{put_together, taken_apart};
pub use second::outside_turns;

//! What calls to the management canister say, and what they are told (IC Interface Specification,
//! "The IC management canister").
//!
//! A `Demand` is a method with what its argument says. `specs/Types` has each method's type, at
//! which its argument is decoded, and `specs/Demands` what the values say. `specs/Checks` has the
//! refusals that every call meets first, in their order, `specs/Denials` their codes and texts,
//! `specs/Modules` which bytes are a module that is installed, and `specs/Replies` what is replied.
//! What a demand changes is not said here. It is a crate of its own for the gate's sake: it needs no code that runs, and
//! is proved beside that.
#![tactic(auto)]

mod cause;
mod checks;
mod demand;
mod denial;
mod ids;
pub mod laws;
mod method;
mod modules;
mod picks;
mod reading;
mod replies;
mod types;

pub use cause::Cause;
pub use checks::{demanded, permitted, unless};
pub use demand::{Demand, InstallCode, Who};
pub use denial::{Denial, Unmet};
pub use method::Method;
pub use modules::{hash_of, module_of};
pub use reading::demand_of;
pub use replies::{canister_reply, status_reply};

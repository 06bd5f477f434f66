//! What canisters do, as the IC Interface Specification defines it ("Abstract behavior"): the types
//! of calls, and the definitions that every layer of the host is held to.
//!
//! A state (`specs/State`) has canisters with their call contexts, messages under way, and the
//! requests of users. `specs/Sound` says what every state keeps: a call has one place, each
//! context that is still open awaits a call, and cycles are neither made nor lost. `specs/Deliver`
//! says what the delivery of a message changes. `specs/Steps` says which messages may be delivered next,
//! `specs/Round` in which order rounds deliver them, and `specs/Runs` what a run is: messages are delivered one
//! after another, in any order or in rounds. The rows of the System API and the management canister are arguments of
//! these definitions.
#![tactic(auto)]

mod call;
mod charge;
mod context;
mod env;
mod execution;
mod install;
mod laws;
mod limit;
mod phase;
mod request;
mod runs;

pub use call::{Answered, CallId, Callback, IncomingCall, Message, Origin, Response};
pub use charge::Charge;
pub use context::Context;
pub use env::{Admitted, Env, Refusal};
pub use execution::{Effects, EntryKind, OutCall, OutCalls, View};
pub use install::{InstallFault, Mode};
pub use laws::{changes_keep_counts, changes_keep_sound, sound_by_totals};
pub use limit::{BoundedEnv, MOST_INSTRUCTIONS};
pub use phase::{Controllers, Phase, Waiter, Waiters};
pub use request::Request;
pub use runs::{any_order, rounds_are_steps};

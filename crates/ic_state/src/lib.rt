//! The state of the host: canisters, messages under way, and the requests of users.
//!
//! A `World` stands for a state of `ic_behaviour` and keeps what every state keeps
//! (`specs/IsWorld`); the numbers that canisters store of their calls are true in it. `Parts` are
//! its fields, for those who change several of them at once; a `World` is made of them again where
//! they keep the same.
#![tactic(auto)]

mod canister;
mod lists;
mod world;

pub use canister::{Canister, CanisterPlace, Code, CodePlace, StorePlace};
pub use ic_behaviour::{
    Admitted, Answered, BoundedEnv, CallId, Callback, Charge, Context, Controllers, Effects,
    EntryKind, Env, IncomingCall, MOST_INSTRUCTIONS, Message, Origin, OutCall, OutCalls, Phase,
    Refusal, Request, Response, View, Waiter, Waiters,
};
pub use lists::{AnsweredList, Contexts, Messages, Requests};
pub use world::{Parts, Totals, World};

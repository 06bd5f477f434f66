use crate::call::{Callback, Response};
use crate::phase::Controllers;
use ic_principal::{Bytes, Principal, Text};
use std::marker::Model;

/// What runs: an entry point, a callback or the start function. `canister_post_upgrade` runs as
/// `Init`.
#[derive(Clone, Copy, Debug, PartialEq, Eq)]
pub enum EntryKind {
    Init,
    PreUpgrade,
    Update,
    Query,
    Reply,
    Reject,
    Cleanup,
    Start,
    Inspect,
}

/// What an execution sees when it begins (IC Interface Specification, "The execution state").
#[derive(Drop)]
pub struct View {
    /// Nanoseconds since 1970-01-01.
    pub time: u64,
    pub id: Principal,
    pub balance: u128,
    /// 1 running, 2 stopping, 3 stopped.
    pub phase_number: u32,
    pub controllers: Controllers,
    pub caller: Principal,
    /// The argument, or the reply in a reply callback.
    pub arg: Bytes,
    pub method: Text,
    /// 0 unless the call was rejected.
    pub reject_code: u32,
    pub reject_message: Text,
    /// The cycles that came back with the answer.
    pub refund: u128,
    /// The cycles of the call that may still be accepted.
    pub available: u128,
    /// Whether the call context has answered.
    pub responded: bool,
    /// How many calls of the canister have no answer yet.
    pub outstanding: u32,
    /// The number of the canister's next call.
    pub next_call: u64,
    pub certified: Bytes,
}

/// A call that goes out.
#[derive(Drop)]
pub struct OutCall {
    pub callee: Principal,
    pub method: Text,
    pub arg: Bytes,
    pub cycles: u128,
    pub callback: Callback,
}

/// The calls that go out, in the order in which they were performed. Contracts see the list.
#[derive(Drop)]
pub struct OutCalls {
    pub items: Vec<OutCall>,
}

impl Model for OutCalls {
    ghost use Rattle.std.specs.Prelude.{List};
    ghost use Rattle.ic_behaviour.specs.declared.execution.OutCall.{OutCall};

    ghost Value = { List OutCall };

    ghost view = { λ l. l.items.items };
}

/// What an execution did that outlasts it, beside the store.
#[derive(Drop)]
pub struct Effects {
    pub balance: u128,
    pub available: u128,
    /// The answer with its refund, if one was given in this execution.
    pub answer: Option<(Response, u128)>,
    pub calls: OutCalls,
    pub certified: Bytes,
    /// Whether an inspection accepted the message.
    pub accepted_message: bool,
}

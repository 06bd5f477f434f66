ghost use Rattle.std.specs.Prelude.{◌≡◌};
ghost use Rattle.ic_behaviour.specs.State.{at, caller_of, callee_of};

use ic_principal::{Bytes, Principal, Text};

/// The name of a call, and of the call context that it makes (IC Interface Specification, "Call
/// contexts").
#[derive(Clone, Copy, Debug)]
pub enum CallId {
    /// The call of the request with this number, counted from 0.
    Ingress(u32),
    /// The call with this number, counted from 0, among those that the canister made.
    Canister { caller: Principal, number: u64 },
}

/// What a canister runs when its call is answered: places in its table, each with the number that
/// the function there is called with.
#[derive(Clone, Copy, Debug)]
pub struct Callback {
    pub reply_fun: u32,
    pub reply_env: u32,
    pub reject_fun: u32,
    pub reject_env: u32,
    pub cleanup: Option<(u32, u32)>,
}

/// Where a call comes from: the request of a user, or a call context of a canister.
#[derive(Clone, Copy, Debug)]
pub enum Origin {
    Ingress(u32),
    Canister {
        caller: Principal,
        number: u64,
        /// The call context in which the call was made.
        context: CallId,
        callback: Callback,
    },
}

impl Origin {
    /// Whether an answer goes to this canister. One to a user goes to nobody, whose principal has no
    /// bytes.
    pub fn is_caller(&self, canister: &Principal) -> bool
        ensures { result ≡ at canister.now (caller_of self.now) }
    {
        match self {
            Origin::Ingress(_) => canister.bytes().is_empty(),
            Origin::Canister { caller, .. } => canister.cmp(caller).is_eq(),
        }
    }
}

/// How a call is answered.
#[derive(Debug, Drop)]
pub enum Response {
    Reply(Bytes),
    /// With one of the reject codes 1 to 5.
    Reject { code: u32, message: Text },
}

/// A message under way.
#[derive(Debug, Drop)]
pub enum Message {
    /// A call, with the cycles that are transferred with it.
    Call {
        origin: Origin,
        sender: Principal,
        callee: Principal,
        method: Text,
        arg: Bytes,
        cycles: u128,
    },
    /// A response to the call of this origin, with the cycles that come back.
    Answer {
        origin: Origin,
        sender: Principal,
        response: Response,
        refund: u128,
    },
}

/// A call without its callee: what the one who gets it is told.
#[derive(Drop)]
pub struct IncomingCall {
    pub origin: Origin,
    pub sender: Principal,
    pub method: Text,
    pub arg: Bytes,
    /// The cycles that are transferred with it.
    pub cycles: u128,
}

impl Message {
    /// Whether it goes to this canister: a call to its callee, an answer to the caller.
    pub fn is_to(&self, canister: &Principal) -> bool
        ensures { result ≡ at canister.now (callee_of self.now) }
    {
        match self {
            Message::Call { callee, .. } => canister.cmp(callee).is_eq(),
            Message::Answer { origin, .. } => origin.is_caller(canister),
        }
    }
}

/// An answer that a canister gives: to the call of this origin, with the cycles that come back.
#[derive(Drop)]
pub struct Answered {
    pub origin: Origin,
    pub response: Response,
    pub refund: u128,
}

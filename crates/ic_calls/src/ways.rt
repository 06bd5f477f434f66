ghost use Rattle.std.specs.Prelude.{◌≡◌, []};
ghost use Rattle.ic_behaviour.specs.State.{caller_of, callee_of};
ghost use Rattle.ic_behaviour.specs.Deliver.{is_management};
ghost use Rattle.ic_behaviour.specs.Steps.{sender_of, same_way};

use ic_principal::Principal;
use ic_state::{Message, Origin};

fn nobody() -> Principal
    ensures { result ≡ [] }
{
    let Ok(nobody) = Principal::from_bytes(&[]) else {
        unreachable!();
    };
    nobody
}

fn caller(origin: &Origin) -> Principal
    ensures { result ≡ caller_of origin.now }
{
    match origin {
        Origin::Ingress(_) => nobody(),
        Origin::Canister { caller, .. } => *caller,
    }
}

/// Whom a message goes to: a call to its callee, an answer to the caller. A user, whose answers are
/// no messages, has no bytes here.
pub fn callee(message: &Message) -> Principal
    ensures { result ≡ callee_of message.now }
{
    match message {
        Message::Call { callee, .. } => *callee,
        Message::Answer { origin, .. } => caller(origin),
    }
}

/// Who sent a message.
pub fn sender(message: &Message) -> Principal
    ensures { result ≡ sender_of message.now }
{
    match message {
        Message::Call { sender, .. } => *sender,
        Message::Answer { sender, .. } => *sender,
    }
}

/// Whether two messages have one sender and one callee.
pub fn same_way(message: &Message, other: &Message) -> bool
    ensures { result ≡ same_way message.now other.now }
{
    sender(message).cmp(&sender(other)).is_eq() && callee(message).cmp(&callee(other)).is_eq()
}

/// Whether a principal is the management canister, which has no bytes.
pub fn is_management(callee: &Principal) -> bool
    ensures { result ≡ is_management callee.now }
{
    callee.bytes().is_empty()
}

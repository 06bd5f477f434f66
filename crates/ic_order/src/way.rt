ghost use Rattle.std.specs.Prelude.{◌≡◌};
ghost use Rattle.ic_order.specs.Ways.{way_of};

use ic_behaviour::{Message, Origin};
use ic_principal::Principal;

/// The way that a message goes: messages that go one way are delivered in the order in which they were
/// sent (IC Interface Specification, "Ordering guarantees").
#[derive(Clone, Copy, Debug, PartialEq, Eq, PartialOrd, Ord)]
pub enum Way {
    /// All calls of one canister to one callee go one way.
    Calls {
        sender: Principal,
        callee: Principal,
    },
    /// Each call of a user goes a way of its own, which the number of its request tells.
    Asks(u32),
    /// So does each answer to a canister, which the call tells that it answers.
    Answers {
        caller: Principal,
        number: u64,
    },
}

/// The way that a message goes.
pub fn way_of(message: &Message) -> Way
    ensures { result ≡ way_of message.now }
{
    match message {
        Message::Call {
            origin: Origin::Canister { .. },
            sender,
            callee,
            ..
        } => Way::Calls {
            sender: *sender,
            callee: *callee,
        },
        Message::Answer {
            origin: Origin::Canister { caller, number, .. },
            ..
        } => Way::Answers {
            caller: *caller,
            number: *number,
        },
        Message::Call {
            origin: Origin::Ingress(number),
            ..
        }
        | Message::Answer {
            origin: Origin::Ingress(number),
            ..
        } => Way::Asks(*number),
    }
}

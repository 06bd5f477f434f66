ghost use Rattle.std.specs.Prelude.{◌≡◌, IfOk, IfSome};
ghost use Rattle.std.specs.List.{fold};
ghost use Rattle.ic_behaviour.specs.State.{callee_of};
ghost use Rattle.ic_behaviour.specs.Steps.{sender_of, same_way};
ghost use Rattle.ic_held.specs.Holding.{user_message, IsUserCall, add_byte, way_tag};

use ic_base::NoMemory;
use ic_calls::{callee, sender};
use ic_principal::{Bytes, Principal, Text};
use ic_state::{Message, Origin};
use std::alloc::Global;
use std::marker::Model;

/// A call of a user, which carries no cycles.
#[derive(Drop)]
pub struct UserCall {
    /// The number of its request.
    pub number: u32,
    pub sender: Principal,
    pub callee: Principal,
    pub method: Text,
    pub arg: Bytes,
}

/// How a message waits, beside the tag of its way.
#[derive(Drop)]
pub enum Kind {
    User(u8, Box<UserCall>),
    Other(u8, Box<Message>),
}

/// A message that waits. A call of a user takes half the memory of another message. Contracts see the message.
pub struct Held {
    kind: Kind,
}

impl Drop for Held {
    fn drop(self) {
        let Held { kind: _kind } = self;
    }
}

impl Model for Held {
    ghost use Rattle.std.specs.Prelude.{◌≡◌};
    ghost use Rattle.ic_behaviour.specs.declared.call.Message.{Message};
    ghost use Rattle.ic_behaviour.specs.State.{callee_of};
    ghost use Rattle.ic_behaviour.specs.Steps.{sender_of};
    ghost use Rattle.ic_held.specs.Holding.{message_of, tag_of, way_tag};

    ghost Value = { Message };

    ghost view = { λ h. message_of h.kind };

    ghost invariant = { λ h. tag_of h.kind ≡ way_tag (sender_of (message_of h.kind)) (callee_of (message_of h.kind)) };
}

// The number of the request, where a call comes from a user and carries no cycles.
fn user_number(message: &Message) -> Option<u32>
    ensures { IfSome result (IsUserCall message.now) }
{
    match message {
        Message::Call {
            origin: Origin::Ingress(number),
            cycles,
            ..
        } => if *cycles == 0 { Some(*number) } else { None },
        _ => None,
    }
}

// A user's call, by its parts.
fn user_call(message: Message, number: u32) -> UserCall
    requires { IsUserCall message number }
    ensures { user_message result ≡ message }
{
    match message {
        Message::Call {
            sender,
            callee,
            method,
            arg,
            ..
        } => UserCall {
            number,
            sender,
            callee,
            method,
            arg,
        },
        Message::Answer { .. } => unreachable!(),
    }
}

// The low byte of the sum of a number and these bytes.
fn summed(sum: u8, bytes: &[u8]) -> u8
    ensures { result ≡ fold add_byte sum bytes.now }
{
    bytes.iter().fold(sum, |sum, byte| sum.wrapping_add(*byte))
}

// A byte that messages of one way share. It tells most others apart without a look at them.
fn tag(sender: &Principal, callee: &Principal) -> u8
    ensures { result ≡ way_tag sender.now callee.now }
{
    summed(summed(0, sender.bytes()), callee.bytes())
}

fn held_other(alloc: Global, message: Message) -> Result<Held, NoMemory>
    ensures { IfOk result (λ h. h ≡ message) }
{
    let tag = tag(&sender(&message), &callee(&message));
    let kind = Kind::Other(tag, Box::new(alloc, message)?);
    Ok(Held { kind })
}

impl Held {
    /// Moves the message to its place.
    pub fn new(alloc: Global, message: Message) -> Result<Held, NoMemory>
        ensures { IfOk result (λ h. h ≡ message) }
    {
        match user_number(&message) {
            Some(number) => Held::of_user(alloc, user_call(message, number)),
            None => held_other(alloc, message),
        }
    }

    /// Moves a user's call to its place.
    pub fn of_user(alloc: Global, call: UserCall) -> Result<Held, NoMemory>
        ensures { IfOk result (λ h. h ≡ user_message call) }
    {
        let tag = tag(&call.sender, &call.callee);
        let kind = Kind::User(tag, Box::new(alloc, call)?);
        Ok(Held { kind })
    }

    /// Takes the message out of its place.
    pub fn take(self) -> Message
        ensures { result ≡ self }
    {
        let Held { kind } = self;
        match kind {
            Kind::User(_, call) => Box::into_inner(call).into_message(),
            Kind::Other(_, message) => Box::into_inner(message),
        }
    }

    /// Who sent it.
    pub fn sender(&self) -> Principal
        ensures { result ≡ sender_of self.now }
    {
        match &self.kind {
            Kind::User(_, call) => call.sender,
            Kind::Other(_, message) => sender(message),
        }
    }

    /// To whom it goes.
    pub fn callee(&self) -> Principal
        ensures { result ≡ callee_of self.now }
    {
        match &self.kind {
            Kind::User(_, call) => call.callee,
            Kind::Other(_, message) => callee(message),
        }
    }

    // The tag of its way.
    fn tag(&self) -> u8
        ensures { result ≡ way_tag (sender_of self.now) (callee_of self.now) }
    {
        match &self.kind {
            Kind::User(tag, _) => *tag,
            Kind::Other(tag, _) => *tag,
        }
    }

    /// Whether this message and another have one sender and one callee.
    pub fn same_way(&self, other: &Held) -> bool
        ensures { result ≡ same_way self.now other.now }
    {
        if self.tag() != other.tag() {
            return false;
        }
        self.sender().cmp(&other.sender()).is_eq() && self.callee().cmp(&other.callee()).is_eq()
    }
}

impl UserCall {
    // The call, as a message.
    fn into_message(self) -> Message
        ensures { result ≡ user_message self }
    {
        let UserCall {
            number,
            sender,
            callee,
            method,
            arg,
        } = self;
        Message::Call {
            origin: Origin::Ingress(number),
            sender,
            callee,
            method,
            arg,
            cycles: 0,
        }
    }
}

ghost use Rattle.std.specs.Prelude.{◌≡◌, ℕ, List, Some, slice_get, OnOk};
ghost use Rattle.std.specs.List.Sorted.{IsStrictlySortedBy};
ghost use Rattle.std.specs.Ordering.{nat_cmp};
ghost use Rattle.std.specs.Map.{lookup, remove_entry, values_of};
ghost use Rattle.ic_behaviour.specs.State.{at};
ghost use Rattle.ic_queues.specs.Queued.{first_to, without_first_to, without_at, push};
ghost use Rattle.ic_queues.specs.Lines.{is_number, remove_number, numbered, waiting_with, outside_with, waiting_without, outside_without, popped_line, line_at};
ghost use Rattle.ic_queues.specs.InLists.{queued_of, AreQueued};

use crate::line::Line;
use crate::shelf::Shelf;
use ic_base::NoMemory;
use ic_held::Held;
use ic_principal::Principal;
use ic_state::Message;
use std::collections::BTreeMap;

/// The parts of queues. Where memory runs out they may be at odds.
#[derive(Drop)]
pub struct Lists {
    /// The messages under their numbers, in the order of the list.
    pub messages: Shelf,
    /// The numbers of the messages to each canister; one without a message has an empty queue.
    pub waiting: BTreeMap<Principal, Line>,
    /// The numbers of the messages to no canister.
    pub outside: Line,
}

// The message of a number leaves, if there is one.
fn taken(messages: &mut Shelf, number: Option<u64>) -> Option<Held>
    ensures messages { messages.new.entries ≡ remove_number number messages.old.entries }
    ensures next { messages.new.next ≡ messages.old.next }
    ensures message { result ≡ numbered number messages.old.entries }
{
    messages.take(number?)
}

// The first number in the queue of a canister leaves, if it has one.
fn pop_number(waiting: &mut BTreeMap<Principal, Line>, key: &Principal) -> Option<u64>
    ensures waiting { waiting.new.entries ≡ popped_line waiting.old.entries key.now (lookup (at key.now) waiting.old.entries) }
    ensures number { result ≡ line_at (lookup (at key.now) waiting.old.entries) }
{
    match waiting.get_mut(key) {
        Some(line) => line.pop(),
        None => None,
    }
}

// A number comes last in the queue of its callee.
fn line_up(
    waiting: &mut BTreeMap<Principal, Line>,
    outside: &mut Line,
    callee: &Principal,
    number: u64,
) -> Result<(), NoMemory>
    ensures waiting { OnOk result (waiting.new.entries ≡ waiting_with waiting.old.entries callee.now number (lookup (at callee.now) waiting.old.entries)) }
    ensures outside { OnOk result (outside.new ≡ outside_with outside.old number (lookup (at callee.now) waiting.old.entries)) }
{
    match waiting.get_mut(callee) {
        Some(line) => line.push(number),
        None => outside.push(number),
    }
}

// A number leaves the queue of its callee.
fn leave_line(
    waiting: &mut BTreeMap<Principal, Line>,
    outside: &mut Line,
    callee: &Principal,
    number: u64,
)
    requires theirs { (line : List ℕ) → lookup (at callee.now) waiting.old.entries ≡ Some line → IsStrictlySortedBy nat_cmp line }
    requires others { IsStrictlySortedBy nat_cmp outside.old }
    ensures waiting { waiting.new.entries ≡ waiting_without waiting.old.entries callee.now number (lookup (at callee.now) waiting.old.entries) }
    ensures outside { outside.new ≡ outside_without outside.old number (lookup (at callee.now) waiting.old.entries) }
{
    match waiting.get_mut(callee) {
        Some(line) => line.remove(number),
        None => outside.remove(number),
    }
}

impl Lists {
    /// Takes the first message to a canister.
    pub fn pop(&mut self, key: &Principal) -> Option<Held>
        requires { AreQueued self.old }
        ensures keeps { AreQueued self.new }
        ensures queues { queued_of self.new ≡ without_first_to key.now (queued_of self.old) }
        ensures message { result ≡ first_to key.now (queued_of self.old) }
    {
        let number = pop_number(&mut self.waiting, key);
        taken(&mut self.messages, number)
    }

    /// Takes the message at a place of the list, if there is one.
    pub fn take_at(&mut self, place: usize) -> Option<Message>
        requires { AreQueued self.old }
        ensures keeps { AreQueued self.new }
        ensures queues { queued_of self.new ≡ without_at place (queued_of self.old) }
        ensures message { result ≡ slice_get (queued_of self.old).messages place }
    {
        match self.messages.number_at(place) {
            Some(number) => self.take_number(number),
            None => None,
        }
    }

    // Takes the message of a number, if it is there.
    fn take_number(&mut self, number: u64) -> Option<Message>
        requires { AreQueued self.old }
        ensures keeps { AreQueued self.new }
        ensures messages { (queued_of self.new).messages ≡ values_of (remove_entry (is_number number) self.old.messages.entries) }
        ensures rest { queued_of self.new ≡ record (queued_of self.old) { messages = (queued_of self.new).messages } }
        ensures message { result ≡ lookup (is_number number) self.old.messages.entries }
    {
        match self.messages.take(number) {
            Some(held) => {
                let callee = held.callee();
                leave_line(&mut self.waiting, &mut self.outside, &callee, number);
                Some(held.take())
            }
            None => None,
        }
    }

    /// Puts a message after the others.
    pub fn push(&mut self, message: Held) -> Result<(), NoMemory>
        requires { AreQueued self.old }
        ensures keeps { OnOk result (AreQueued self.new) }
        ensures queues { OnOk result (queued_of self.new ≡ push (queued_of self.old) message) }
    {
        let callee = message.callee();
        let number = self.messages.push(message)?;
        line_up(&mut self.waiting, &mut self.outside, &callee, number)?;
        Ok(())
    }
}

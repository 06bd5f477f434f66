ghost use Rattle.std.specs.Prelude.{◌≡◌, ◌==◌, ◌&&◌, ◌++◌, true, length, take, slice_get, [], IfOk, OnOk};
ghost use Rattle.std.specs.List.{AllByRecursion};
ghost use Rattle.std.specs.List.Sorted.{IsStrictlySortedBy};
ghost use Rattle.std.specs.Map.{lookup, keys_of};
ghost use Rattle.std.specs.Ordering.{nat_cmp};
ghost use Rattle.std.specs.Cmp.Lexicographic.{slice_cmp};
ghost use Rattle.ic_behaviour.specs.State.{at};
ghost use Rattle.ic_queues.specs.Queued.{first_to, without_first_to, without_at, first_of_way, push, no_messages};
ghost use Rattle.ic_held.specs.Holding.{user_message};
ghost use Rattle.ic_queues.specs.InLists.{queued_of, AreQueued};
ghost use Rattle.ic_queues.specs.Lines.{remove_number, numbered, waiting_with, outside_with, empty_lines, popped_line, line_at};

use crate::line::Line;
use crate::lists::Lists;
use crate::moving::moved;
use crate::shelf::Shelf;
use crate::walk::Walk;
use ic_base::NoMemory;
use ic_held::{Held, UserCall};
use ic_principal::Principal;
use ic_state::{CanisterPlace, Message, Messages};
use std::alloc::Global;
use std::collections::BTreeMap;
use std::marker::Model;

/// The messages under way, with a queue for each canister. What it keeps is said in `specs/Lines`.
pub struct Queues {
    pub(crate) lists: Lists,
}

// Not derived, so that it is proved here and not in each crate that drops them.
impl Drop for Queues {
    fn drop(self) {
        let Queues { lists: _lists } = self;
    }
}

impl Model for Queues {
    ghost use Rattle.ic_queues.specs.Queued.{Queued};
    ghost use Rattle.ic_queues.specs.InLists.{queued_of, AreQueued};

    ghost Value = { Queued };

    ghost view = { λ w. queued_of w.lists };

    ghost invariant = { λ w. AreQueued w.lists };
}

/// Whether each of these canisters has a queue, and nobody else.
pub fn have_queues(
    waiting: &BTreeMap<Principal, Line>,
    canisters: &BTreeMap<Principal, CanisterPlace>,
) -> bool
    ensures { result ≡ true → keys_of waiting.now.entries ≡ keys_of canisters.now.entries }
{
    waiting.len() == canisters.len()
        && waiting
            .keys()
            .zip(canisters.keys())
            .all(|(key, other)| *key == *other)
}

/// An empty queue for each canister.
pub fn empty_lines(
    alloc: Global,
    canisters: Vec<Principal>,
) -> Result<BTreeMap<Principal, Line>, NoMemory>
    ensures { IfOk result (λ m. m.entries ≡ empty_lines canisters.items) }
{
    let mut lines = BTreeMap::new(alloc);
    for key in canisters {
        lines.insert(key, Line::new(alloc))?;
    }
    Ok(lines)
}

impl Queues {
    /// No message; each of these canisters, which rise, has a queue.
    pub fn new(alloc: Global, canisters: Vec<Principal>) -> Result<Queues, NoMemory>
        requires rising { IsStrictlySortedBy (slice_cmp nat_cmp) canisters.items }
        ensures { IfOk result (λ w. w ≡ no_messages canisters.items) }
    {
        let lists = Lists {
            messages: Shelf::new(alloc),
            waiting: empty_lines(alloc, canisters)?,
            outside: Line::new(alloc),
        };
        Ok(Queues { lists })
    }

    /// How many messages there are.
    pub fn len(&self) -> usize
        ensures { result ≡ length self.now.messages }
    {
        self.lists.messages.len()
    }

    /// Whether there is no message.
    pub fn is_empty(&self) -> bool
        ensures { result ≡ (length self.now.messages == 0) }
    {
        self.lists.messages.len() == 0
    }

    /// Takes the first message to a canister.
    pub fn pop(&mut self, key: &Principal) -> Option<Held>
        ensures queues { self.new ≡ without_first_to key.now self.old }
        ensures message { result ≡ first_to key.now self.old }
    {
        self.lists.pop(key)
    }

    /// Whether there is a message at a place of the list, and none before it has its sender and its callee.
    pub fn is_eligible(&self, place: usize) -> bool
        ensures { result ≡ first_of_way (take place self.now.messages) (slice_get self.now.messages place) }
    {
        self.lists.messages.is_eligible(place)
    }

    /// Takes the message at a place of the list, if there is one.
    pub fn take_at(&mut self, place: usize) -> Option<Message>
        ensures queues { self.new ≡ without_at place self.old }
        ensures message { result ≡ slice_get self.old.messages place }
    {
        self.lists.take_at(place)
    }

    /// Whether there is much empty room between the messages.
    pub fn is_sparse(&self) -> bool {
        self.lists.messages.is_sparse()
    }

    /// Puts a user's call after the others.
    pub fn push(self, alloc: Global, call: UserCall) -> Result<Queues, NoMemory>
        ensures { IfOk result (λ w. w ≡ push self (user_message call)) }
    {
        let Queues { mut lists } = self;
        lists.push(Held::of_user(alloc, call)?)?;
        Ok(Queues { lists })
    }

    /// Puts messages after the others.
    pub fn append(self, alloc: Global, messages: Messages) -> Result<Queues, NoMemory>
        ensures messages { IfOk result (λ w. w.messages ≡ self.messages ++ messages) }
        ensures canisters { IfOk result (λ w. w.canisters ≡ self.canisters) }
    {
        let Queues { mut lists } = self;
        for message in messages.items {
            lists.push(Held::new(alloc, message)?)?;
        }
        Ok(Queues { lists })
    }

    /// The same messages, where these are the canisters.
    pub fn with_canisters(
        self,
        alloc: Global,
        canisters: &BTreeMap<Principal, CanisterPlace>,
    ) -> Result<Queues, NoMemory>
        requires rising { IsStrictlySortedBy (slice_cmp nat_cmp) (keys_of canisters.now.entries) }
        ensures { IfOk result (λ w. w ≡ record self { canisters = keys_of canisters.now.entries }) }
    {
        if have_queues(&self.lists.waiting, canisters) {
            return Ok(self);
        }
        let ids = canisters.keys().copied().collect(alloc)?;
        let Queues { lists } = self;
        let lists = moved(alloc, lists, ids)?;
        Ok(Queues { lists })
    }

    /// Before the first message of the list.
    pub fn walk(self, alloc: Global) -> Walk
        ensures { result ≡ record { canisters = self.canisters; kept = []; todo = self.messages } }
    {
        let Queues { lists } = self;
        Walk::start(alloc, lists)
    }

    /// The list of the messages.
    pub fn open(self, alloc: Global) -> Result<Messages, NoMemory>
        ensures { IfOk result (λ l. l ≡ self.messages) }
    {
        let Queues { lists } = self;
        let Lists { messages, .. } = lists;
        messages.open(alloc)
    }
}

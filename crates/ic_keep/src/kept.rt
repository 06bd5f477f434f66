ghost use Rattle.std.specs.Prelude.{◌≡◌, ◌↔◌, ◌%◌, ◌^◌, [], IfOk, IsTrue};
ghost use Rattle.std.specs.Bool.{OnTrue, OnFalse};
ghost use Rattle.ic_behaviour.specs.Totals.{total};
ghost use Rattle.ic_keep.specs.Kept.{kept_without_messages};
ghost use Rattle.ic_keep.specs.Key.{key_of_message, key_of_requests};

use crate::key::{key_of_messages, key_of_requests};
use crate::messages::KeptMessages;
use crate::parts::KeptCanister;
use ic_base::NoMemory;
use ic_exact::{Exact, Same, Shared, copied, same_items, unshared};
use ic_state::{Messages, Request};
use std::alloc::Global;
use std::marker::Model;

/// A state that is kept by a `Keeper`, which knows what its numbers stand for.
pub struct Kept {
    pub(crate) canisters: Vec<Shared<KeptCanister>>,
    pub(crate) messages: KeptMessages,
    pub(crate) requests: Vec<Shared<Request>>,
    pub(crate) time: u64,
    pub(crate) created: u128,
    pub(crate) burned: u128,
    pub(crate) next_canister: u64,
}

impl Model for Kept {
    ghost use Rattle.ic_keep.specs.Kept.{KeptState};

    ghost Value = { KeptState };

    ghost view = { λ k. record {
      canisters = k.canisters.items;
      messages = k.messages;
      requests = k.requests.items;
      time = k.time;
      created = k.created;
      burned = k.burned;
      next_canister = k.next_canister;
    } };
}

impl Drop for Kept {
    fn drop(self) {
        let Kept {
            canisters: _canisters,
            messages: _messages,
            requests: _requests,
            time: _,
            created: _,
            burned: _,
            next_canister: _,
        } = self;
    }
}

impl Kept {
    /// The empty state, as it is kept by any `Keeper`. It takes no memory.
    pub fn empty(alloc: Global) -> Kept
        ensures { result ≡ record { canisters = []; messages = []; requests = []; time = 0; created = 0; burned = 0; next_canister = 0 } }
    {
        Kept {
            canisters: Vec::new(alloc),
            messages: KeptMessages::empty(alloc),
            requests: Vec::new(alloc),
            time: 0,
            created: 0,
            burned: 0,
            next_canister: 0,
        }
    }
}

impl Kept {
    /// Whether all but the messages is equal.
    pub(crate) fn has_same_rest(&self, other: &Kept) -> bool
        ensures { IsTrue result ↔ (kept_without_messages self.now ≡ kept_without_messages other.now) }
    {
        self.time == other.time
            && self.created == other.created
            && self.burned == other.burned
            && self.next_canister == other.next_canister
            && same_items(self.canisters.as_slice(), other.canisters.as_slice())
            && same_items(self.requests.as_slice(), other.requests.as_slice())
    }
}

impl Kept {
    /// The messages under way.
    pub fn messages(&self, alloc: Global) -> Result<Messages, NoMemory>
        ensures { IfOk result (λ messages. messages ≡ self.now.messages) }
    {
        Ok(Messages {
            items: unshared(alloc, self.messages.as_slice())?,
        })
    }

    /// Whether any message is under way.
    pub fn has_messages(&self) -> bool
        ensures some { OnTrue result (¬ (self.now.messages ≡ [])) }
        ensures none { OnFalse result (self.now.messages ≡ []) }
    {
        !self.messages.as_slice().is_empty()
    }

    /// The same state, kept by the same `Keeper`.
    pub fn copy(&self, alloc: Global) -> Result<Kept, NoMemory>
        ensures { IfOk result (λ copy. copy ≡ self.now) }
    {
        Ok(Kept {
            canisters: copied(alloc, self.canisters.as_slice())?,
            messages: self.messages.copy(alloc)?,
            requests: copied(alloc, self.requests.as_slice())?,
            time: self.time,
            created: self.created,
            burned: self.burned,
            next_canister: self.next_canister,
        })
    }

    /// The key of the messages and of the answers to requests.
    pub(crate) fn key_without_canisters(&self) -> u64
        ensures { result ≡ key_of_requests (total key_of_message self.now.messages % 2 ^ 64) self.now.requests }
    {
        key_of_requests(
            key_of_messages(self.messages.as_slice()),
            self.requests.as_slice(),
        )
    }
}

impl Same for Kept {
    fn same(&self, other: &Kept) -> bool {
        self.has_same_rest(other) && self.messages.same(&other.messages)
    }
}

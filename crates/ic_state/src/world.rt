ghost use Rattle.std.specs.Prelude.{◌≡◌, ℕ, ◌+◌, ◌-◌, ◌<◌, ◌≤◌, ◌^◌, length, IfOk};
ghost use Rattle.std.specs.Option.{option_copied};
ghost use Rattle.std.specs.Bool.{OnTrue, OnFalse};
ghost use Rattle.std.specs.List.{position, list_all};
ghost use Rattle.std.specs.BTreeMap.{values};
ghost use Rattle.ic_behaviour.specs.State.{at, callee_of};
ghost use Rattle.ic_behaviour.specs.Items.{held, Drained};
ghost use Rattle.ic_behaviour.specs.Counted.{dropped};
ghost use Rattle.ic_behaviour.specs.Submitted.{empty, submitted, timed, added, IsNew, HasRoom};
ghost use Rattle.ic_state.specs.Seen.{seen, is_calm, state_of, answer_at};
ghost use Rattle.ic_state.specs.IsCanister.{IsCanister};
ghost use Rattle.ic_state.specs.IsWorld.{IsWorld};

use crate::canister::{Canister, CanisterPlace};
use crate::lists::{Messages, Requests};
use ic_base::NoMemory;
use ic_behaviour::{Message, Origin, Phase, Request, Response};
use ic_heard::Heard;
use ic_principal::{Bytes, Principal, Text};
use std::alloc::Global;
use std::collections::BTreeMap;
use std::marker::Model;

/// The fields of a `World`, open to change.
pub struct Parts {
    pub canisters: BTreeMap<Principal, CanisterPlace>,
    pub messages: Messages,
    pub requests: Requests,
    /// Nanoseconds since 1970-01-01.
    pub time: u64,
    /// The cycles that were ever created.
    pub created: u128,
    /// The cycles that were ever burned.
    pub burned: u128,
    /// The number of the next canister.
    pub next_canister: u64,
}

impl Drop for Parts {
    fn drop(self) {
        let Parts {
            canisters: _canisters,
            messages: _messages,
            requests: _requests,
            time: _,
            created: _,
            burned: _,
            next_canister: _,
        } = self;
    }
}

/// Cycles: those that were created, those that are there, and those that were burned.
#[derive(Clone, Copy)]
pub struct Totals {
    pub created: u128,
    pub held: u128,
    pub burned: u128,
}

/// A state. Contracts see the state that it stands for.
pub struct World {
    parts: Parts,
}

impl Drop for World {
    fn drop(self) {
        let World { parts: _parts } = self;
    }
}

impl Model for World {
    ghost use Rattle.ic_behaviour.specs.State.{State};
    ghost use Rattle.ic_state.specs.Seen.{state_of};
    ghost use Rattle.ic_state.specs.IsWorld.{IsWorld};

    ghost Value = { State };

    ghost view = { λ w. state_of w.parts };

    ghost invariant = { λ w. IsWorld w.parts };
}

// Somebody listens to the canister, if it is there.
fn listen_in(
    alloc: Global,
    canisters: &mut BTreeMap<Principal, CanisterPlace>,
    id: &Principal,
) -> Result<(), NoMemory>
    ensures { canisters.new.entries ≡ canisters.old.entries }
{
    match canisters.get_mut(id) {
        Some(place) => place.get_mut().store.listen(alloc),
        None => Ok(()),
    }
}

// What was heard of the canister, if it is there.
fn take_heard_in(
    alloc: Global,
    canisters: &mut BTreeMap<Principal, CanisterPlace>,
    id: &Principal,
) -> Heard
    ensures { canisters.new.entries ≡ canisters.old.entries }
{
    match canisters.get_mut(id) {
        Some(place) => place.get_mut().store.take_heard(alloc),
        None => Heard::new(alloc),
    }
}

impl World {
    /// The empty world, at time 0. It takes no memory; the allocator serves the later calls.
    pub fn new(alloc: Global) -> World
        ensures { result ≡ empty }
    {
        World {
            parts: Parts {
                canisters: BTreeMap::new(alloc),
                messages: Messages {
                    items: Vec::new(alloc),
                },
                requests: Requests {
                    items: Vec::new(alloc),
                },
                time: 0,
                created: 0,
                burned: 0,
                next_canister: 0,
            },
        }
    }

    /// From now on somebody listens to the canister, if it is there. The state stays.
    pub fn listen_to(&mut self, alloc: Global, id: &Principal) -> Result<(), NoMemory>
        ensures { self.new ≡ self.old }
    {
        listen_in(alloc, &mut self.parts.canisters, id)
    }

    /// Takes what was heard of the canister. The state stays, and whoever listens goes on.
    pub fn take_heard(&mut self, alloc: Global, id: &Principal) -> Heard
        ensures { self.new ≡ self.old }
    {
        take_heard_in(alloc, &mut self.parts.canisters, id)
    }

    /// Lends the fields.
    pub fn parts(&self) -> &Parts
        ensures state { state_of result.now ≡ self.now }
        ensures keeps { IsWorld result.now }
    {
        &self.parts
    }

    /// The fields.
    pub fn open(self) -> Parts
        ensures state { state_of result ≡ self }
        ensures keeps { IsWorld result }
    {
        let World { parts } = self;
        parts
    }

    /// The world with these fields.
    pub fn seal(parts: Parts) -> World
        requires { IsWorld parts }
        ensures { result ≡ state_of parts }
    {
        World { parts }
    }

    /// The cycles.
    pub fn totals(&self) -> Totals
        ensures value { result ≡ record { created = self.now.created; held = held self.now; burned = self.now.burned } }
        ensures conserved { result.created ≡ result.held + result.burned }
    {
        let Parts {
            created,
            burned,
            ..
        } = &self.parts;
        Totals {
            created: *created,
            held: *created - *burned,
            burned: *burned,
        }
    }

    /// The answer to the request with this number, if one was given.
    pub fn answer(&self, k: u32) -> Option<&Response>
        requires { k < length self.now.requests }
        ensures { option_copied result ≡ answer_at self.now k }
    {
        self.parts.requests.items[k as usize].answer.as_ref()
    }

    /// The place of the first message to this canister. An answer goes to its caller.
    pub fn first_for(&self, c: &Principal) -> Option<usize>
        ensures { result ≡ position (λ m. at c.now (callee_of m)) self.now.messages }
    {
        self.parts
            .messages
            .items
            .iter()
            .position(|message| message.is_to(c))
    }

    /// Whether no message is under way and no call waits for a canister to stop.
    pub fn drained(&self) -> bool
        ensures yes { OnTrue result (Drained self.now) }
        ensures no { OnFalse result (¬ Drained self.now) }
    {
        self.parts.messages.is_empty() && nobody_waits(&self.parts.canisters)
    }

    /// The world at a later time, in nanoseconds since 1970-01-01.
    pub fn set_time(&mut self, time: u64)
        requires later { self.old.time ≤ time }
        requires small { time ≤ 9223372036854775807 }
        ensures { self.new ≡ timed self.old time }
    {
        self.parts.time = time;
    }

    /// A user calls: the request and its call come last. The call carries no cycles.
    pub fn submit(
        self,
        sender: Principal,
        callee: Principal,
        method: Text,
        arg: Bytes,
    ) -> Result<World, NoMemory>
        requires { length self.requests < 2 ^ 20 }
        ensures { IfOk result (λ w. w ≡ submitted self sender callee method arg) }
    {
        let World { mut parts } = self;
        let number = parts.requests.len() as u32;
        parts.messages.push(Message::Call {
            origin: Origin::Ingress(number),
            sender,
            callee,
            method: method.copy()?,
            arg: arg.copy()?,
            cycles: 0,
        })?;
        parts.requests.push(Request {
            sender,
            callee,
            method,
            arg,
            time: parts.time,
            answer: None,
        })?;
        Ok(World { parts })
    }

    /// A new canister with the next number, whose balance was created.
    pub fn add(self, canister: Canister) -> Result<World, NoMemory>
        requires new { IsNew self.next_canister (dropped (seen canister)) }
        requires keeps { IsCanister canister }
        requires room { HasRoom self canister.balance }
        ensures { IfOk result (λ w. w ≡ added self (dropped (seen canister))) }
    {
        let id = canister.id;
        let balance = canister.balance;
        let place = placed(&self.parts.messages, canister)?;
        let World { mut parts } = self;
        parts.created += balance;
        parts.next_canister += 1;
        parts.canisters.insert(id, place)?;
        Ok(World { parts })
    }
}

// The canister in a place, from the allocator of the messages.
fn placed(messages: &Messages, canister: Canister) -> Result<CanisterPlace, NoMemory>
    ensures { IfOk result (λ p. p ≡ canister) }
{
    CanisterPlace::new(*messages.items.allocator(), canister)
}

// Whether no call waits for one of these canisters to stop.
fn nobody_waits(canisters: &BTreeMap<Principal, CanisterPlace>) -> bool
    ensures { result ≡ list_all is_calm (values canisters.now) }
{
    canisters.values().all(|canister| canister.get().is_calm())
}

ghost use Rattle.std.specs.Prelude.{◌≡◌, ◌==◌, ◌<◌, ◌≤◌, ◌^◌, true, [], length, take, slice_get, IfOk};
ghost use Rattle.std.specs.Map.{keys_of};
ghost use Rattle.ic_behaviour.specs.Submitted.{submitted, timed};
ghost use Rattle.ic_queues.specs.Queued.{first_of_way};
ghost use Rattle.ic_queue_rounds.specs.InQueues.{IsInQueues, with_messages};
ghost use Rattle.ic_state.specs.Seen.{state_of};
ghost use Rattle.ic_state.specs.IsWorld.{IsWorld};

use ic_base::NoMemory;
use ic_held::UserCall;
use ic_mgmt::{put_together, taken_apart};
use ic_principal::{Bytes, Principal, Text};
use ic_queues::Queues;
use ic_state::{CanisterPlace, Parts, Request, World};
use std::alloc::Global;
use std::collections::BTreeMap;
use std::marker::Model;

/// A world whose messages are in queues. Contracts see the state that it stands for. It is public for whoever keeps one over
/// many rounds, as a script does.
#[derive(Drop)]
pub struct QueuedWorld {
    /// All but the messages.
    rest: Parts,
    queues: Queues,
}

impl Model for QueuedWorld {
    ghost use Rattle.ic_behaviour.specs.State.{State};
    ghost use Rattle.ic_state.specs.Seen.{state_of};
    ghost use Rattle.ic_queue_rounds.specs.InQueues.{IsInQueues, with_messages};

    ghost Value = { State };

    ghost view = { λ w. state_of (with_messages w.rest w.queues.messages) };

    ghost invariant = { λ w. IsInQueues w.rest w.queues };
}

/// The ids of canisters, in rising order.
pub fn ids(
    alloc: Global,
    canisters: &BTreeMap<Principal, CanisterPlace>,
) -> Result<Vec<Principal>, NoMemory>
    ensures { IfOk result (λ v. v.items ≡ keys_of canisters.now.entries) }
{
    canisters.keys().copied().collect(alloc)
}

impl QueuedWorld {
    /// Puts the messages of a world into queues.
    pub fn new(alloc: Global, world: World) -> Result<QueuedWorld, NoMemory>
        ensures { IfOk result (λ w. w ≡ world) }
    {
        let (rest, messages) = taken_apart(alloc, world.open());
        let canisters = ids(alloc, &rest.canisters)?;
        let queues = Queues::new(alloc, canisters)?.append(alloc, messages)?;
        Ok(QueuedWorld { rest, queues })
    }

    /// The world, with the list of its messages.
    pub fn into_world(self, alloc: Global) -> Result<World, NoMemory>
        ensures { IfOk result (λ w. w ≡ self) }
    {
        let QueuedWorld { rest, queues } = self;
        let messages = queues.open(alloc)?;
        let parts = put_together(messages, rest)?;
        Ok(World::seal(parts))
    }

    /// Whether no message is under way.
    pub fn is_empty(&self) -> bool
        ensures { result ≡ (length self.now.messages == 0) }
    {
        self.queues.is_empty()
    }

    /// How many messages are under way.
    pub fn len(&self) -> usize
        ensures { result ≡ length self.now.messages }
    {
        self.queues.len()
    }

    /// Whether there is a message at a place of the list, and none before it has its sender and its callee.
    pub fn is_eligible(&self, place: usize) -> bool
        ensures { result ≡ first_of_way (take place self.now.messages) (slice_get self.now.messages place) }
    {
        self.queues.is_eligible(place)
    }

    /// Whether there is much empty room between the messages.
    pub fn is_sparse(&self) -> bool {
        self.queues.is_sparse()
    }

    /// Lends all but the messages.
    pub fn rest(&self) -> &Parts
        ensures state { state_of (with_messages result.now self.now.messages) ≡ self.now }
        ensures keeps { IsWorld (with_messages result.now self.now.messages) }
    {
        &self.rest
    }

    /// The world at a later time, in nanoseconds since 1970-01-01.
    pub fn set_time(&mut self, time: u64)
        requires later { self.old.time ≤ time }
        requires small { time ≤ 9223372036854775807 }
        ensures { self.new ≡ timed self.old time }
    {
        self.rest.time = time;
    }

    /// A user calls: the request and its call come last. The call carries no cycles.
    pub fn submit(
        self,
        alloc: Global,
        sender: Principal,
        callee: Principal,
        method: Text,
        arg: Bytes,
    ) -> Result<QueuedWorld, NoMemory>
        requires { length self.requests < 2 ^ 20 }
        ensures { IfOk result (λ w. w ≡ submitted self sender callee method arg) }
    {
        let QueuedWorld { mut rest, queues } = self;
        let call = UserCall {
            number: rest.requests.len() as u32,
            sender,
            callee,
            method: method.copy()?,
            arg: arg.copy()?,
        };
        let queues = queues.push(alloc, call)?;
        rest.requests.push(Request {
            sender,
            callee,
            method,
            arg,
            time: rest.time,
            answer: None,
        })?;
        Ok(QueuedWorld { rest, queues })
    }

    /// All but the messages, and the queues.
    pub fn open(self) -> (Parts, Queues)
        ensures state { state_of (with_messages result.0 result.1.messages) ≡ self }
        ensures keeps { IsInQueues result.0 result.1 }
    {
        let QueuedWorld { rest, queues } = self;
        (rest, queues)
    }

    /// The world whose messages are in these queues, which may be those of other canisters. The messages to these change their queue.
    pub fn close(alloc: Global, rest: Parts, queues: Queues) -> Result<QueuedWorld, NoMemory>
        requires keeps { IsWorld (with_messages rest queues.messages) }
        requires none { rest.messages ≡ [] }
        ensures { IfOk result (λ w. w ≡ state_of (with_messages rest queues.messages)) }
    {
        let queues = queues.with_canisters(alloc, &rest.canisters)?;
        Ok(QueuedWorld { rest, queues })
    }

    /// The world whose messages are in these queues.
    pub fn seal(rest: Parts, queues: Queues) -> QueuedWorld
        requires { IsInQueues rest queues }
        ensures { result ≡ state_of (with_messages rest queues.messages) }
    {
        QueuedWorld { rest, queues }
    }
}

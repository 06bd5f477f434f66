ghost use Rattle.std.specs.Prelude.{◌≡◌, ◌+◌, ◌<◌, ◌≤◌, ◌∷◌, ℕ, List, [], true, false, IfOk};
ghost use Rattle.ic_behaviour.specs.declared.call.Message.{Message as AMessage};
ghost use Rattle.ic_state.specs.declared.world.Parts.{Parts as TheParts};
ghost use Rattle.ic_mgmt.specs.Sweeping.{stays, Meets, Reaches};
ghost use Rattle.ic_mgmt.specs.Ways.{HasWays};

use crate::outside::deliver_outside;
use ic_base::NoMemory;
use ic_calls::{callee, sender};
use ic_principal::Principal;
use ic_state::{Message, Messages, Parts};
use std::alloc::Global;
use std::collections::BTreeSet;

/// How far a second phase has come.
#[derive(Drop)]
pub struct Sweep {
    /// Messages that stay, and the sender and callee of each.
    pub kept: Messages,
    pub left: BTreeSet<(Principal, Principal)>,
    /// All else: its messages are the new ones.
    pub rest: Parts,
    pub handled: u64,
}

impl Sweep {
    /// Before the first message; the parts are without their messages.
    pub fn start(alloc: Global, rest: Parts) -> Sweep
        ensures kept { result.kept ≡ [] }
        ensures rest { result.rest ≡ rest }
        ensures handled { result.handled ≡ 0 }
        ensures ways { HasWays result.left result.kept }
    {
        Sweep {
            kept: Messages {
                items: Vec::new(alloc),
            },
            left: BTreeSet::new(alloc),
            rest,
            handled: 0,
        }
    }

    fn stays(&self, message: &Message) -> bool
        requires ways { HasWays self.now.left self.now.kept }
        ensures { result ≡ stays self.now.kept self.now.rest message.now }
    {
        let callee = callee(message);
        self.rest.canisters.contains_key(&callee) || self.left.contains(&(sender(message), callee))
    }

    fn keep(self, message: Message) -> Result<Sweep, NoMemory>
        requires ways { HasWays self.left self.kept }
        requires stays { stays self.kept self.rest message ≡ true }
        ensures reaches { IfOk result (λ w. (limit : ℕ) (start : TheParts) (todo : List AMessage)
            → Reaches limit start self.kept (message ∷ todo) self.rest self.handled
            → Reaches limit start w.kept todo w.rest w.handled) }
        ensures ways { IfOk result (λ w. HasWays w.left w.kept) }
        ensures handled { IfOk result (λ w. w.handled ≡ self.handled) }
    {
        let Sweep {
            mut kept,
            mut left,
            rest,
            handled,
        } = self;
        let way = (sender(&message), callee(&message));
        left.insert(way)?;
        kept.push(message)?;
        Ok(Sweep {
            kept,
            left,
            rest,
            handled,
        })
    }

    fn deliver(self, alloc: Global, message: Message, limit: u64) -> Result<Sweep, NoMemory>
        requires ways { HasWays self.left self.kept }
        requires few { self.handled < 18446744073709551615 }
        requires next { Meets self.kept message self.rest }
        requires goes { stays self.kept self.rest message ≡ false }
        ensures reaches { IfOk result (λ w. (start : TheParts) (todo : List AMessage)
            → Reaches limit start self.kept (message ∷ todo) self.rest self.handled
            → Reaches limit start w.kept todo w.rest w.handled) }
        ensures ways { IfOk result (λ w. HasWays w.left w.kept) }
        ensures handled { IfOk result (λ w. w.handled ≡ self.handled + 1) }
    {
        let Sweep {
            kept,
            left,
            rest,
            handled,
        } = self;
        let rest = deliver_outside(alloc, rest, message, limit)?;
        Ok(Sweep {
            kept,
            left,
            rest,
            handled: handled + 1,
        })
    }

    /// Goes past a message.
    pub fn meet(self, alloc: Global, message: Message, limit: u64) -> Result<Sweep, NoMemory>
        requires ways { HasWays self.left self.kept }
        requires few { self.handled < 18446744073709551615 }
        requires next { Meets self.kept message self.rest }
        ensures reaches { IfOk result (λ w. (start : TheParts) (todo : List AMessage)
            → Reaches limit start self.kept (message ∷ todo) self.rest self.handled
            → Reaches limit start w.kept todo w.rest w.handled) }
        ensures ways { IfOk result (λ w. HasWays w.left w.kept) }
        ensures few { IfOk result (λ w. w.handled ≤ self.handled + 1) }
    {
        if self.stays(&message) {
            self.keep(message)
        } else {
            self.deliver(alloc, message, limit)
        }
    }
}

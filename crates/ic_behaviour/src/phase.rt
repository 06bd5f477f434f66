ghost use Rattle.std.specs.Prelude.{◌≡◌};
ghost use Rattle.ic_behaviour.specs.State.{is_awaited};

use crate::call::Origin;
use ic_principal::Principal;
use std::marker::Model;

/// Who may manage a canister. Contracts see the list.
#[derive(Debug, Drop)]
pub struct Controllers {
    pub items: Vec<Principal>,
}

impl Model for Controllers {
    ghost use Rattle.std.specs.Prelude.{List, ℕ};

    ghost Value = { List (List ℕ) };

    ghost view = { λ c. c.items.items };
}

/// A call to stop a canister that is answered when the canister is stopped, with the cycles of the
/// call.
#[derive(Clone, Copy, Debug)]
pub struct Waiter {
    pub origin: Origin,
    pub cycles: u128,
}

/// The calls that wait for a canister to stop, the first one first. Contracts see the list.
#[derive(Debug, Drop)]
pub struct Waiters {
    pub items: Vec<Waiter>,
}

impl Model for Waiters {
    ghost use Rattle.std.specs.Prelude.{List};
    ghost use Rattle.ic_behaviour.specs.declared.phase.Waiter.{Waiter};

    ghost Value = { List Waiter };

    ghost view = { λ l. l.items.items };
}

/// The status of a canister (IC Interface Specification, "Canister status").
#[derive(Debug, Drop)]
pub enum Phase {
    Running,
    Stopping(Waiters),
    Stopped,
}

impl Phase {
    /// Whether a call waits for the canister to stop.
    pub fn is_awaited(&self) -> bool
        ensures { result ≡ is_awaited self.now }
    {
        match self {
            Phase::Stopping(waiters) => !waiters.items.is_empty(),
            _ => false,
        }
    }
}

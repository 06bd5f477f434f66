ghost use Rattle.std.specs.Prelude.{◌≡◌};

use ic_outside::Gate;

/// What permits a worker to handle the message of one slot: it has passed the gate for it. Only `pass` makes one,
/// and none is copied.
#[derive(Drop)]
pub struct Permit {
    worker: u32,
    number: u32,
}

impl Permit {
    /// The worker with this number passes the gate, on its way to the message of the slot with that number.
    pub fn pass<G: Gate>(gate: &G, worker: u32, number: u32) -> Permit
        ensures worker { result.worker ≡ worker }
        ensures number { result.number ≡ number }
    {
        gate.pass(worker, number);
        Permit { worker, number }
    }

    /// The number of the slot.
    pub fn number(&self) -> u32
        ensures { result ≡ self.now.number }
    {
        self.number
    }
}

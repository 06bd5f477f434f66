ghost use Rattle.std.specs.Prelude.{◌<◌};

use ic_outside::Gate;
use std::sync::atomic::AtomicU64;
use std::sync::atomic::Ordering::SeqCst;

// A call of `pass` that gives up is counted, so that a test ends also where no second worker comes.
const TURNS: u32 = 100_000_000;

/// Holds those who pass first until that many have come, and keeps what it is told: four bits for each of the
/// first four workers on its way to each of the first four slots.
#[derive(Drop)]
pub struct Holding {
    calls: AtomicU64,
    gave_up: AtomicU64,
    told: AtomicU64,
    held: u64,
    until: u64,
}

impl Gate for Holding {
    fn pass(&self, worker: u32, slot: u32) {
        if worker < 4 && slot < 4 {
            self.told.fetch_add(1 << (16 * worker + 4 * slot), SeqCst);
        }
        let before = self.calls.fetch_add(1, SeqCst);
        if before >= self.held {
            return;
        }
        for _ in 0..TURNS {
            if self.calls.load(SeqCst) >= self.until {
                return;
            }
        }
        self.gave_up.fetch_add(1, SeqCst);
    }
}

impl Holding {
    pub fn new(held: u64, until: u64) -> Holding {
        Holding {
            calls: AtomicU64::new(0),
            gave_up: AtomicU64::new(0),
            told: AtomicU64::new(0),
            held,
            until,
        }
    }

    /// How many came, and how many gave up.
    pub fn seen(&self) -> (u64, u64) {
        (self.calls.load(SeqCst), self.gave_up.load(SeqCst))
    }

    /// What was told by this worker: four bits for each slot.
    pub fn told(&self, worker: u32) -> u64
        requires { worker < 4 }
    {
        self.told.load(SeqCst) >> (16 * worker) & 0xffff
    }
}

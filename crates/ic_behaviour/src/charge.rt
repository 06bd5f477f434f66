ghost use Rattle.std.specs.Prelude.{◌≡◌, ◌≤◌};
ghost use Rattle.ic_behaviour.specs.declared.limit.TheConstants.{MOST_INSTRUCTIONS};

use crate::env::Env;
use crate::limit::BoundedEnv;

/// What the instructions of executions may come to, and what they cost.
#[derive(Clone, Copy, Debug)]
pub struct Charge {
    /// The most instructions that one execution may use.
    pub limit: u64,
    /// The cycles that an instruction costs.
    pub price: u64,
    ghost bounded: { limit ≤ MOST_INSTRUCTIONS },
}

impl Charge {
    /// With the time that an execution has.
    pub fn at(self, time: u64) -> BoundedEnv
        ensures { result ≡ record { time = time; limit = self.limit; price = self.price } }
    {
        BoundedEnv::of(Env {
            time,
            limit: self.limit,
            price: self.price,
        })
    }
}

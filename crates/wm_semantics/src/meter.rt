ghost use Rattle.std.specs.Prelude.{◌≡◌, ◌+◌, ◌≤◌, nat_le, if◌then◌else◌};

use std::marker::Model;

/// A limit of charges, and what is used of it. An instruction costs 1 at least.
#[derive(Debug, Drop)]
pub struct Meter {
    limit: u64,
    used: u64,
}

impl Model for Meter {
    ghost use Rattle.std.specs.Prelude.{◌≤◌};
    ghost use Rattle.wm_semantics.specs.Metered.{Metered};

    ghost Value = { Metered };

    ghost view = { λ m. record { limit = m.limit; used = m.used } };

    ghost invariant = { λ m. m.used ≤ m.limit };
}

impl Meter {
    /// A meter of which nothing is used.
    pub fn new(limit: u64) -> Meter
        ensures { result ≡ record { limit = limit; used = 0 } }
    {
        Meter { limit, used: 0 }
    }

    /// The limit.
    pub fn limit(&self) -> u64
        ensures { result ≡ self.now.limit }
    {
        self.limit
    }

    /// What is used.
    pub fn used(&self) -> u64
        ensures used { result ≡ self.now.used }
        ensures within { self.now.used ≤ self.now.limit }
    {
        self.used
    }

    /// Uses n more, unless that passes the limit: then nothing changes.
    pub fn charge(&mut self, n: u128) -> bool
        ensures fits { result ≡ nat_le (self.old.used + n) self.old.limit }
        ensures used { self.new.used ≡ (if result then self.old.used + n else self.old.used) }
        ensures limit { self.new.limit ≡ self.old.limit }
    {
        let fits = n <= (self.limit - self.used) as u128;
        if fits {
            self.used += n as u64;
        }
        fits
    }
}

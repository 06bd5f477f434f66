ghost use Rattle.std.specs.Prelude.{◌≡◌, ◌≤◌};

use crate::env::Env;
use std::marker::Model;

/// No limit of instructions is above it.
pub const MOST_INSTRUCTIONS: u64 = 1_000_000_000_000;

/// An `Env` with a limit of at most `MOST_INSTRUCTIONS`. Contracts see the `Env`.
#[derive(Clone, Copy, Debug)]
pub struct BoundedEnv {
    env: Env,
}

impl Model for BoundedEnv {
    ghost use Rattle.std.specs.Prelude.{◌≤◌};
    ghost use Rattle.ic_behaviour.specs.declared.env.Env.{Env};
    ghost use Rattle.ic_behaviour.specs.declared.limit.TheConstants.{MOST_INSTRUCTIONS};

    ghost Value = { Env };

    ghost view = { λ b. b.env };

    ghost invariant = { λ b. b.env.limit ≤ MOST_INSTRUCTIONS };

    ghost inverse = { λ e. record { env = e } };
}

impl BoundedEnv {
    pub fn of(env: Env) -> BoundedEnv
        requires { env.limit ≤ MOST_INSTRUCTIONS }
        ensures { result ≡ env }
    {
        BoundedEnv { env }
    }

    pub fn env(self) -> Env
        ensures value { result ≡ self }
        ensures bounded { result.limit ≤ MOST_INSTRUCTIONS }
    {
        self.env
    }
}
